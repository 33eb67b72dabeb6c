// The plain pass's entry, on the bytes of a graph file and an anchor file. The sweep does not stand below this crate.
#![tactic(auto)]

ghost use Rattle.std.specs.Prelude.{◌≤◌, length};
ghost use Rattle.wire.specs.Sizes.{most_read, full_scores, full_chain};
ghost use Rattle.graph.specs.Content.{Graph};
ghost use Rattle.anchors.specs.Anchors.{AnchorSet};
ghost use Rattle.chain.specs.ChainEntries.{IsPlain};
ghost use Rattle.read_order.specs.Order.{PlacesFit};
ghost use Rattle.placing_over.specs.Lying.{Over, SomeOver};
ghost use Rattle.placing_over.specs.Laying.{Laid};
ghost use Rattle.placing.specs.Answer.{Answered};

use placing::ChainAnswer;
use placing_files::place;
use placing_over::over::{Placement, place_over};
use plain_engine::Plain;
use steps::setting::Tables;

// The plain pass over a graph whose tables are made, a read of r letters and `count` anchors.
pub fn plain_over(
    tables: Tables<'_>,
    r: usize,
    count: usize,
    numbers: &[u32],
    scores: &mut [u32],
    chain: &mut [u32],
) -> Placement
    requires some_over { SomeOver tables count numbers.now }
    requires places_fit { PlacesFit count r numbers.now × (r ≤ most_read) }
    requires full_scores_in_bounds { (full_scores ≤ length scores.old) × (full_chain ≤ length chain.old) }
    ensures { (g : Graph) → (a : AnchorSet) → Over g a tables.entry count numbers.now
        → Laid IsPlain g a.anchors (record { scores = scores.old; chain = chain.old })
        (record { scores = scores.new; chain = chain.new }) result }
{
    place_over::<Plain>(tables, r, count, numbers, scores, chain)
}

// The plain pass: the same scores and chain as the sweep, with no rounds; a refusal writes nothing.
pub fn plain(graph: &[u8], file: &[u8], scores: &mut [u32], chain: &mut [u32]) -> ChainAnswer
    ensures { Answered IsPlain graph.now file.now
        (record { scores = scores.old; chain = chain.old })
        (record { scores = scores.new; chain = chain.new })
        result }
{
    place::<Plain>(graph, file, scores, chain)
}
