// The anchor that gives a score: of those with a step to an anchor and exactly its score as their candidate, the lowest-numbered.
#![tactic(auto)]

ghost use Rattle.std.specs.Prelude.{◌≤◌, length, MatchOption};
ghost use Rattle.wire.specs.Sizes.{most_read};
ghost use Rattle.pair_step.specs.Pairs.{RowFits, EndsFit};
ghost use Rattle.score_giver.specs.Giver.{NoneHas, Lowest, GivesIn};

use candidates::gives;
use pair_step::pair::{Ends, Start};
use pair_step::step::step;

// "the lowest-numbered anchor that gives its score", of the anchors with these scores, for an anchor of this score that starts there; None where none gives it.
pub fn giver(ends: &Ends<'_>, scores: &[u32], row: &[u32], score: u32, to: Start) -> Option<usize>
    requires ends_fit { EndsFit (length scores.now) ends.now }
    requires row_fits { RowFits (length scores.now) ends.now row.now }
    requires x_le_most_read { (to.x ≤ most_read) × (to.c ≤ most_read) × (1 ≤ to.x) }
    ensures { MatchOption result (NoneHas (GivesIn ends.now scores.now row.now score to.v to.x to.c to.weight) (length scores.now))
        (Lowest (GivesIn ends.now scores.now row.now score to.v to.x to.c to.weight) (length scores.now)) }
{
    for (i, given) in scores.iter().enumerate() {
        if let Some(gaps) = step(row, ends.at(i), to) {
            if gives(*given, to.weight, gaps, score) {
                return Some(i + 1);
            }
        }
    }
    None
}
