// The bytes of numbers and of paths: how many they take, and these written.
#![tactic(auto)]

pub mod room; // room.rt: how many bytes numbers take
pub mod puts; // puts.rt: numbers and paths written
