// The rules of the graph file.
#![tactic(auto)]

pub mod rooms; // rooms.rt: full sizes of the lent buffers
pub mod rules; // rules.rt: the rules, each as the refusal number that it gives
