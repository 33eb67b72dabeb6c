// The sweep's entry, on the bytes of a graph file and an anchor file. The plain pass does not stand below this crate.
#![tactic(auto)]

ghost use Rattle.std.specs.Prelude.{◌≤◌, length};
ghost use Rattle.wire.specs.Sizes.{full_scores, full_chain};
ghost use Rattle.graph.specs.Content.{Graph};
ghost use Rattle.anchors.specs.Anchors.{AnchorSet};
ghost use Rattle.chain.specs.ChainEntries.{IsSweep};
ghost use Rattle.placing_over.specs.Lying.{Over, SomeOver};
ghost use Rattle.placing_over.specs.Laying.{Laid};
ghost use Rattle.placing.specs.Answer.{Answered};

use placing::ChainAnswer;
use placing_files::place;
use placing_over::over::{Placement, place_over};
use steps::setting::Tables;
use sweep_engine::Sweep;

// The sweep over a graph whose tables are made, of `count` anchors.
pub fn sweep_over(
    tables: Tables<'_>,
    count: usize,
    numbers: &[u32],
    scores: &mut [u32],
    chain: &mut [u32],
) -> Placement
    requires some_over { SomeOver tables count numbers.now }
    requires full_scores_in_bounds { (full_scores ≤ length scores.old) × (full_chain ≤ length chain.old) }
    ensures { (g : Graph) → (a : AnchorSet) → Over g a tables.entry count numbers.now
        → Laid IsSweep g a.anchors (record { scores = scores.old; chain = chain.old })
        (record { scores = scores.new; chain = chain.new }) result }
{
    place_over::<Sweep>(tables, 0, count, numbers, scores, chain)
}

// The sweep: the scores of the anchors and the chain that is returned, with the rounds made; a refusal writes nothing.
pub fn sweep(graph: &[u8], file: &[u8], scores: &mut [u32], chain: &mut [u32]) -> ChainAnswer
    ensures { Answered IsSweep graph.now file.now
        (record { scores = scores.old; chain = chain.old })
        (record { scores = scores.new; chain = chain.new })
        result }
{
    place::<Sweep>(graph, file, scores, chain)
}
