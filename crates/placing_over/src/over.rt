// One anchor file over a graph whose tables are made: where the anchors end, an engine's scores, and what every engine does after them.
ghost use Rattle.std.specs.Prelude.{◌≡◌, ◌≤◌, length, take};
ghost use Rattle.wire.specs.Sizes.{full_scores, full_chain};
ghost use Rattle.graph.specs.Content.{Graph};
ghost use Rattle.anchors.specs.Anchors.{AnchorSet};
ghost use Rattle.steps.specs.Setting.{Holds};
ghost use Rattle.steps.specs.Scores.{Scored};
ghost use Rattle.placing_over.specs.Lying.{Over, SomeOver};
ghost use Rattle.placing_over.specs.Laying.{Ended, Laid};

use engine::Engine;
use named_chain::list_chain;
use pair_step::pair::Ends;
use steps::ends::fill_ends;
use steps::setting::{Setting, Tables};
use wire::sizes::FULL_SCORES;
use wire_lent::{zero_rest, zeros};

// The greatest score, the rounds, and the length of the chain.
#[derive(Clone, Copy)]
pub struct Placement {
    pub score: u32,
    pub rounds: u32,
    pub length: u32,
}

// The chain by an engine's scores, which lie at the front of `scores`, and 0 in the unused places of the scores up to the full size. `row` is
// lent with a place for each vertex.
pub fn lay_chain(
    rounds: u32,
    s: &Setting<'_>,
    row: &mut [u32],
    scores: &mut [u32],
    chain: &mut [u32],
) -> Placement
    requires scored { Scored s.now (take s.now.count scores.old) }
    requires row_len { (length row.old ≡ s.now.n) × (full_scores ≤ length scores.old) × (full_chain ≤ length chain.old) }
    ensures { Ended s.now rounds
        (record { scores = scores.old; chain = chain.old })
        (record { scores = scores.new; chain = chain.new }) result }
{
    let count = s.count;
    let mut back: [u32; 2048] = zeros();
    let found = list_chain(s, &scores[..count], row, &mut back[..count], chain);
    zero_rest(scores, count, FULL_SCORES);
    Placement {
        score: found.score,
        rounds,
        length: found.length as u32,
    }
}

// An engine's scores over a setting, and the chain by them. `row` is lent with a place for each vertex.
pub fn score_chain<E: Engine>(
    s: &Setting<'_>,
    r: usize,
    row: &mut [u32],
    scores: &mut [u32],
    chain: &mut [u32],
) -> Placement
    requires asked { E.can r s.now.count s.now.numbers }
    requires row_len { (length row.old ≡ s.now.n) × (full_scores ≤ length scores.old) × (full_chain ≤ length chain.old) }
    ensures { (g : Graph) → (a : AnchorSet) → Holds s.now g a
        → Laid E.is g a.anchors (record { scores = scores.old; chain = chain.old })
        (record { scores = scores.new; chain = chain.new }) result }
{
    let count = s.count;
    let rounds = E::score(&mut scores[..count], row, s, r);
    lay_chain(rounds, s, row, scores, chain)
}

// An engine's work on `count` anchors over a read of r letters and a graph whose tables are made.
pub fn place_over<E: Engine>(
    tables: Tables<'_>,
    r: usize,
    count: usize,
    numbers: &[u32],
    scores: &mut [u32],
    chain: &mut [u32],
) -> Placement
    requires some_over { SomeOver tables count numbers.now }
    requires asked { E.can r count numbers.now }
    requires full_scores_in_bounds { (full_scores ≤ length scores.old) × (full_chain ≤ length chain.old) }
    ensures { (g : Graph) → (a : AnchorSet) → Over g a tables.entry count numbers.now
        → Laid E.is g a.anchors (record { scores = scores.old; chain = chain.old })
        (record { scores = scores.new; chain = chain.new }) result }
{
    let mut us: [u32; 2048] = zeros();
    let mut ys: [u32; 2048] = zeros();
    let mut ds: [u32; 2048] = zeros();
    fill_ends(numbers, count, &mut us, &mut ys, &mut ds);
    let mut row: [u32; 1024] = zeros();
    let n = tables.n;
    let s = Setting {
        tables,
        count,
        numbers,
        ends: Ends {
            us: &us,
            ys: &ys,
            ds: &ds,
        },
    };
    score_chain::<E>(&s, r, &mut row[..n], scores, chain)
}
