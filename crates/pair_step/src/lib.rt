// The step between two anchors with its gaps.
#![tactic(auto)]

pub mod pair; // pair.rt: where an anchor ends, and where the next starts
pub mod step; // step.rt: the step between two anchors, its gaps
