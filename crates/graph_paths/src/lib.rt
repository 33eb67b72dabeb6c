// The check of the paths of a graph file: each step is searched for among the edges, and the vertices are marked.
#![tactic(auto)]

pub mod marks; // marks.rt: which vertices are on a path
pub mod search; // search.rt: a path's step, searched for among the edges
pub mod paths; // paths.rt: the paths
