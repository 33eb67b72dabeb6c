// The anchor file: its definitions are in specs/, their theorems in proofs/.
#![tactic(auto)]

// The numbers of an anchor: v, x, c, length, weight.
pub const PER_ANCHOR: usize = 5;
