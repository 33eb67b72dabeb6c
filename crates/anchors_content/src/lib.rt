// The content that the anchor writer is given: its first fault.
#![tactic(auto)]

pub mod given; // given.rt: the content in lent buffers, its read and its anchors
pub mod content; // content.rt: the first fault of the content
