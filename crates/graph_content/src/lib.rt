// The content that a writer of a graph file is given: the first fault of its parts, in the reader's order.
#![tactic(auto)]

pub mod given; // given.rt: the content in lent buffers, its edges and its paths
pub mod content; // content.rt: the first fault of a label's letters, of the edges and of a path's vertices
pub mod covered; // covered.rt: every vertex is on a path
