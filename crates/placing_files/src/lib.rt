// A chaining entry on the bytes of a graph file and an anchor file, by any engine. No engine stands below this crate.
#![tactic(auto)]

ghost use Rattle.std.specs.Prelude.{◌≡◌, ◌≤◌, length};
ghost use Rattle.wire.specs.Found.{good};
ghost use Rattle.wire.specs.Sizes.{full_letters, full_scores, full_chain};
ghost use Rattle.graph.specs.Reading.{Parsed, graph_of};
ghost use Rattle.anchors.specs.Anchors.{AnchorSet};
ghost use Rattle.engine.specs.Lying.{AnchorsLie};
ghost use Rattle.placing_over.specs.Laying.{Laid};
ghost use Rattle.placing.specs.Begun.{SomeRead};
ghost use Rattle.placing.specs.Answer.{Answered};

use engine::Engine;
use placing::{ChainAnswer, acceptance, begin, refusal};
use placing_over::over::{Placement, place_over};
use steps::setting::Tables;
use tables_ready::make_ready;
use wire::sizes::ROW;
use wire_lent::zeros;

// An engine's work over an accepted graph file, on the `count` anchors in `numbers` over a read of r letters. `letters` is room to work in.
fn place_read<E: Engine>(
    graph: &[u8],
    r: usize,
    count: usize,
    letters: &mut [u8],
    numbers: &[u32],
    scores: &mut [u32],
    chain: &mut [u32],
) -> Placement
    requires some_read { SomeRead graph.now count numbers.now }
    requires asked { E.can r count numbers.now }
    requires full_letters_in_bounds { (full_letters ≤ length letters.old) × (full_scores ≤ length scores.old) × (full_chain ≤ length chain.old) }
    ensures { (p : Parsed) → (a : AnchorSet) → graph_of graph.now ≡ good p → AnchorsLie p.graph a count numbers.now
        → Laid E.is p.graph a.anchors (record { scores = scores.old; chain = chain.old })
        (record { scores = scores.new; chain = chain.new }) result }
{
    let mut lengths: [u32; 1024] = zeros();
    let mut paths: [u32; 16384] = zeros();
    let mut reach: [u32; 16384] = zeros();
    let mut distance: [u32; 16384] = zeros();
    let mut closed: [u32; 1024] = zeros();
    let g = make_ready(
        graph,
        letters,
        &mut lengths,
        &mut paths,
        &mut reach,
        &mut distance,
        &mut closed,
    );
    let n = g.vertices as usize;
    let cells = ROW * n;
    let tables = Tables {
        n,
        k: g.paths as usize,
        lengths: &lengths,
        paths: &paths,
        reach: &reach[..cells],
        distance: &distance[..cells],
        closed: &closed[..n],
    };
    place_over::<E>(tables, r, count, numbers, scores, chain)
}

// The scores of the anchors and the chain that is returned, with the rounds made; a refusal writes nothing.
pub fn place<E: Engine>(
    graph: &[u8],
    file: &[u8],
    scores: &mut [u32],
    chain: &mut [u32],
) -> ChainAnswer
    ensures { Answered E.is graph.now file.now
        (record { scores = scores.old; chain = chain.old })
        (record { scores = scores.new; chain = chain.new })
        result }
{
    let mut letters: [u8; 32768] = zeros();
    let mut numbers: [u32; 10240] = zeros();
    let a = begin(graph, file, scores, chain, &mut letters, &mut numbers);
    if a.number != 0 {
        return refusal(a.number, a.file, a.place);
    }
    let t = place_read::<E>(
        graph,
        a.letters as usize,
        a.anchors as usize,
        &mut letters,
        &numbers,
        scores,
        chain,
    );
    acceptance(a.anchors, t)
}
