// What the work of any engine on one anchor file shares, over a graph whose tables are made.
#![tactic(auto)]

pub mod over; // over.rt: the chain by an engine's scores, and the placement
