// What both engines share beside the step: the setting that they work on. Its definitions and laws are those of steps and scores over a setting.
#![tactic(auto)]

pub mod ends; // ends.rt: where the anchors end
pub mod setting; // setting.rt: the tables, and the anchors over them
