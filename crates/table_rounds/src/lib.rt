// The rounds of a table over content that lies in buffers; specs has the rules of every table's rounds.
#![tactic(auto)]

pub mod by_rule; // by_rule.rt: the rounds by any rule
pub mod reach; // reach.rt: the rule of the reach table
