// The parts of the check of the anchor file: where the labels stand, one anchor by the rules, and the anchors one after the other.
#![tactic(auto)]

pub mod labels; // labels.rt: where the labels lie in the graph file
pub mod one; // one.rt: one anchor
pub mod each; // each.rt: the anchors of a file, one by one
