// The listing of an engine's result, out of the numbers and buffers that the result is in. No engine stands below this crate.
#![tactic(auto)]

ghost use Rattle.std.specs.Prelude.{List, ◌≤◌, length};
ghost use Rattle.anchors.specs.Anchors.{Anchor};
ghost use Rattle.chain.specs.ChainEntries.{Result};
ghost use Rattle.listing_lines.specs.Lines.{Printed};
ghost use Rattle.listing_text.specs.Lines.{listing_room};
ghost use Rattle.listing_result.specs.Showing.{listing_of, Shown, SomeShown};

use listing_text::put_listing;

// A result as an engine leaves it: how many anchors the file has, the greatest score, the rounds and how long the chain is, and the buffers of the
// anchors' numbers, their scores and the chain.
#[derive(Clone, Copy)]
pub struct Found<'a> {
    pub anchors: u32,
    pub score: u32,
    pub rounds: u32,
    pub long: u32,
    pub numbers: &'a [u32],
    pub scores: &'a [u32],
    pub chain: &'a [u32],
}

// Lays the first line, and a line for each anchor of the chain, at the front of out, and says how many bytes that took.
pub fn put_result(out: &mut [u8], found: &Found<'_>) -> usize
    requires listing_room_in_bounds { listing_room ≤ length out.old }
    requires some_shown { SomeShown found.now.anchors found.now.score found.now.rounds found.now.long
        found.now.numbers.now found.now.scores.now found.now.chain.now }
    ensures { (l : List Anchor) (t : Result) → Shown l t found.now.anchors found.now.score found.now.rounds found.now.long
        found.now.numbers.now found.now.scores.now found.now.chain.now
        → Printed (listing_of l t) out.old out.new result }
{
    let count = found.long as usize;
    put_listing(
        out,
        found.anchors,
        found.score,
        found.rounds,
        found.numbers,
        found.scores,
        &found.chain[..count],
    )
}
