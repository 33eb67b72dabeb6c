// Laying the numbers and the paths of an accepted graph file into lent buffers.
#![tactic(auto)]

pub mod numbers; // numbers.rt: the numbers of an accepted section
pub mod paths; // paths.rt: the paths, each in its room, and their counts
