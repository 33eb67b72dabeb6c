// The rules on one anchor, in code.
#![tactic(auto)]

pub mod rooms; // rooms.rt: full sizes of the lent buffers
pub mod rules; // rules.rt: one anchor's numbers, and the rules on them
