// The tables before their first round, reach and distance, and the distances that the last round leaves.
#![tactic(auto)]

pub mod reach; // reach.rt: where the reach table starts
pub mod distance; // distance.rt: where the distance table starts, and the distances
