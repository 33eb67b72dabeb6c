// Making the tables of a graph whose content lies in buffers.
#![tactic(auto)]

pub mod content; // content.rt: content that lies in buffers
pub mod make; // make.rt: the tables of content that lies in buffers
pub mod targets; // targets.rt: edges listed by the vertex that they go into
