// The closed walks: rounds of least walks from sixteen vertices at a time, and one edge more.
#![tactic(auto)]

pub mod closed; // closed.rt: closed walks
