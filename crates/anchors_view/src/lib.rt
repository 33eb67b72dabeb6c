// The letters of one anchor, as they stand in either file.
#![tactic(auto)]

pub mod view; // view.rt: the letters of one anchor
