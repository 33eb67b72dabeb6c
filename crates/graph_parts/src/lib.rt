// The parts of the check of the graph file that go by the rules alone: counts, labels and edges.
#![tactic(auto)]

pub mod counts; // counts.rt: a count with its range
pub mod labels; // labels.rt: the labels and their letters
pub mod edges; // edges.rt: the edges
