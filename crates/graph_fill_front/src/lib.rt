// Laying the sections of an accepted graph file that stand before the paths into lent buffers.
#![tactic(auto)]

pub mod labels; // labels.rt: the labels' letters and lengths
pub mod edges; // edges.rt: the edges' numbers
