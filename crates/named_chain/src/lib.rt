// The chain that is returned: from the lowest-numbered anchor of greatest score back along the anchors that give the scores.
#![tactic(auto)]

ghost use Rattle.std.specs.Prelude.{◌≡◌, ◌≤◌, length, drop};
ghost use Rattle.wire.specs.Sizes.{full_chain};
ghost use Rattle.rounds.specs.Rounds.{Within};
ghost use Rattle.steps.specs.Scores.{Scored};
ghost use Rattle.named_chain.specs.Returning.{CameFrom, WayBack, ChainLaid};

use chain_parts::top;
use score_giver::giver;
use steps::setting::Setting;
use vertex_row::make_row;
use wire::sizes::FULL_CHAIN;
use wire_lent::zero_rest;

// The length of the chain that is returned, and its score.
#[derive(Clone, Copy)]
pub struct Chained {
    pub length: usize,
    pub score: u32,
}

// The anchor to go back to from anchor j; None to stop there: "stop if its score is its weight, else take the lowest-numbered anchor that gives its score".
fn came_from(s: &Setting<'_>, scores: &[u32], row: &mut [u32], j: usize) -> Option<usize>
    requires scored { Scored s.now scores.now }
    requires within { Within s.now.count j × (length row.old ≡ s.now.n) }
    ensures { CameFrom s.now scores.now j result }
{
    let to = s.start(j - 1);
    let score = scores[j - 1];
    if score == to.weight {
        return None;
    }
    make_row(row, to.v, &s.tables);
    giver(&s.ends, scores, row, score, to)
}

// The way back from anchor `last`, written from the end of `back` towards its front, so that it stands in read order; the answer is the place of its
// first anchor.
fn way_back(
    s: &Setting<'_>,
    scores: &[u32],
    row: &mut [u32],
    last: usize,
    back: &mut [u32],
) -> usize
    requires scored { Scored s.now scores.now }
    requires within { Within s.now.count last × (length row.old ≡ s.now.n) × (length back.old ≡ s.now.count) }
    ensures { (result ≤ s.now.count) × WayBack s.now scores.now last (drop result back.new) }
{
    let mut j = last;
    let mut at = back.len();
    // No `for`: each anchor is known by the one that it gives its score to.
    loop {
        at -= 1;
        back[at] = j as u32;
        match came_from(s, scores, row, j) {
            Some(i) => j = i,
            None => return at,
        }
    }
}

// The chain that is returned, in read order at the front of `chain`, and 0 in the other places up to the full size.
pub fn list_chain(
    s: &Setting<'_>,
    scores: &[u32],
    row: &mut [u32],
    back: &mut [u32],
    chain: &mut [u32],
) -> Chained
    requires scored { Scored s.now scores.now }
    requires row_len { (length row.old ≡ s.now.n) × (length back.old ≡ s.now.count) × (full_chain ≤ length chain.old) }
    ensures { ChainLaid s.now scores.now chain.old chain.new result.length result.score }
{
    if scores.is_empty() {
        zero_rest(chain, 0, FULL_CHAIN);
        return Chained {
            length: 0,
            score: 0,
        };
    }
    let last = top(scores);
    let at = way_back(s, scores, row, last, back);
    let way = &back[at..];
    // No `copy_from_slice`: it would have the archive for C need `memmove`.
    for i in 0..way.len() {
        chain[i] = way[i];
    }
    zero_rest(chain, way.len(), FULL_CHAIN);
    Chained {
        length: way.len(),
        score: scores[last - 1],
    }
}
