// The cells of a table: the greater and the nearer of two, what an edge brings, and a row of sixteen written back.
#![tactic(auto)]

pub mod rows; // rows.rt: cells, and a row of sixteen of them
pub mod in_edges; // in_edges.rt: the edges, listed by the vertex that they go into
