// How an anchor of the plain pass gets its score: it looks back over the anchors that were taken before it in read order.
#![tactic(auto)]

ghost use Rattle.std.specs.Prelude.{◌≤◌, length};
ghost use Rattle.wire.specs.Sizes.{most_read, most_weight};
ghost use Rattle.rounds.specs.Table.{entry};
ghost use Rattle.pair_step.specs.Pairs.{Greatest, step_from, RowFits, EndsFit};
ghost use Rattle.read_order.specs.Order.{Among};
ghost use Rattle.plain_look.specs.Looking.{LooksBack};

use candidates::raised;
use pair_step::pair::{Ends, Start};
use pair_step::step::step;

// The greatest of the weight and of the candidates of the anchors that are taken, for an anchor that starts there.
pub fn look_back(taken: &[u32], ends: &Ends<'_>, scores: &[u32], row: &[u32], to: Start) -> u32
    requires ends_fit { EndsFit (length scores.now) ends.now }
    requires row_fits { RowFits (length scores.now) ends.now row.now }
    requires looks_back { LooksBack (length taken.now) taken.now scores.now }
    requires x_le_most_read { (to.x ≤ most_read) × (to.c ≤ most_read) × (1 ≤ to.x) × (to.weight ≤ most_weight) }
    ensures { Greatest to.weight to.weight (step_from ends.now row.now to.v to.x to.c) (λ i. entry i scores.now) (Among taken.now (length taken.now)) result }
{
    let mut best = to.weight;
    for j in taken {
        let i = *j as usize - 1;
        if let Some(gaps) = step(row, ends.at(i), to) {
            best = raised(best, scores[i], to.weight, gaps);
        }
    }
    best
}
