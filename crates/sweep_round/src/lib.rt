// One round of the sweep: "a round takes anchors in rising number, in place, each score becoming the greatest of itself and all candidates".
#![tactic(auto)]

ghost use Rattle.std.specs.Prelude.{◌≡◌, ◌≢◌, ◌≤◌, length};
ghost use Rattle.rounds.specs.Loop.{Told};
ghost use Rattle.wire.specs.Sizes.{most_read, most_weight};
ghost use Rattle.pair_step.specs.Pairs.{RowFits, EndsFit, ScoresFit};
ghost use Rattle.steps.specs.Scores.{ScoresLow};
ghost use Rattle.sweep_round.specs.Round.{best_in, round_of};

use candidates::raised;
use pair_step::pair::{Ends, Start};
use pair_step::step::step;
use steps::setting::Setting;
use vertex_row::row_for;

// The greatest of a score and of all candidates of anchors 1 to n, for an anchor that starts at `to`.
fn best_of(n: usize, ends: &Ends<'_>, scores: &[u32], row: &[u32], own: u32, to: Start) -> u32
    requires ends_fit { EndsFit n ends.now }
    requires row_fits { RowFits n ends.now row.now }
    requires scores_fit { ScoresFit n scores.now }
    requires x_le_most_read { (to.x ≤ most_read) × (to.c ≤ most_read) × (1 ≤ to.x) × (to.weight ≤ most_weight) }
    ensures { result ≡ best_in ends.now scores.now row.now own to.v to.x to.c to.weight n }
{
    let mut best = own;
    for i in 0..n {
        if let Some(gaps) = step(row, ends.at(i), to) {
            best = raised(best, scores[i], to.weight, gaps);
        }
    }
    best
}

// One round: "a round takes anchors in rising number, in place". It says whether a score changed.
pub fn sweep_round(scores: &mut [u32], row: &mut [u32], s: &Setting<'_>) -> bool
    requires scores_low { ScoresLow s.now scores.old }
    requires row_len { length row.old ≡ s.now.n }
    ensures scores_after { scores.new ≡ round_of s.now scores.old }
    ensures told { Told result (scores.new ≢ scores.old) (scores.new ≡ scores.old) }
{
    let mut changed = false;
    let mut stands = None;
    for j in 0..s.count {
        let to = s.start(j);
        row_for(row, stands, to.v, &s.tables);
        stands = Some(to.v);
        let best = best_of(s.count, &s.ends, scores, row, scores[j], to);
        if best != scores[j] {
            scores[j] = best;
            changed = true;
        }
    }
    changed
}
