// The wire layer: what both kinds of file are made of. Numbers in groups of seven bits, letters, the refusal numbers and the sizes of
// document 01, and what a lent buffer holds after a call.
#![tactic(auto)]

pub mod refusals; // refusals.rt: the refusal numbers
pub mod sizes; // sizes.rt: ranges and full sizes
pub mod numbers; // numbers.rt: a number is read at a cursor, counted, and written
pub mod letters; // letters.rt: the letters
