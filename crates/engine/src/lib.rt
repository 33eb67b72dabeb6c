// What an engine is: it leaves each anchor of a setting its best score. No engine stands below this crate.
#![tactic(auto)]

ghost use Rattle.std.specs.Prelude.{ℕ, List, ◌≡◌, length};
ghost use Rattle.graph.specs.Content.{Graph};
ghost use Rattle.anchors.specs.Anchors.{Anchor, AnchorSet, read_length};
ghost use Rattle.chain.specs.ChainEntries.{Result};
ghost use Rattle.engine.specs.Lying.{AnchorsLie};
ghost use Rattle.engine.specs.Engine.{Leaves};

use steps::setting::Setting;

// An engine.
pub trait Engine {
    // what a result of it is
    ghost is: { Graph → List Anchor → Result → Type 0 };

    // what it asks of the read's length and of the anchors, as they lie in a buffer
    ghost can: { ℕ → ℕ → List ℕ → Type 0 };

    // Leaves the scores of the anchors, over a read of r letters, and says its rounds. `row` is lent with a place for each vertex.
    fn score(scores: &mut [u32], row: &mut [u32], s: &Setting<'_>, r: usize) -> u32
        requires asked { can r s.now.count s.now.numbers }
        requires room { (length scores.old ≡ s.now.count) × (length row.old ≡ s.now.n) }
        ensures { Leaves is s.now result scores.new };

    // what it asks for is so of the anchors of an accepted file, and of their read
    ghost able: { (g : Graph) (a : AnchorSet) (r count : ℕ) (numbers : List ℕ) → AnchorsLie g a count numbers → read_length a ≡ r → can r count numbers };
}
