// The rules of the distance table and of least walks. In the rounds an entry is 0 where it is unknown, and d + 1 where it is d.
#![tactic(auto)]

ghost use Rattle.std.specs.Prelude.{◌≡◌, ◌+◌, ◌*◌, ◌≤◌, ◌<◌, ◌^◌, length};
ghost use Rattle.wire.specs.Sizes.{table_row};
ghost use Rattle.rounds.specs.Rounds.{Within};
ghost use Rattle.rounds.specs.Place.{cell_place};
ghost use Rattle.rounds.specs.Table.{cell};
ghost use Rattle.rounds.specs.Kinds.{shift, closer};
ghost use Rattle.table_rows.specs.Lanes.{brought};
ghost use Rattle.table_rounds.specs.Held.{label_length, near, onward, Fitting};
ghost use Rattle.table_rounds.proofs.Following.{near_follows, onward_follows};
ghost use Rattle.distance_rounds.specs.Reading.{CanStep, CanLevel, steps_on, levels_on};

use table_lanes::EdgeRule;
use table_rows::rows::{further, nearer, over_edge};
use wire::sizes::ROW;

// "distance the least of its own and u's distance plus L(u) over edges u to v whose reach cells are equal"
#[derive(Drop)]
pub struct Distance<'a> {
    pub lengths: &'a [u32],
    pub reach: &'a [u32],
}

impl<'a> EdgeRule for Distance<'a> {
    ghost rules = { λ s m edges. near m s.lengths.now edges s.reach.now };

    ghost Fits = { λ s n table. (n ≤ length s.lengths.now) × (length s.reach.now ≡ table_row * n) × Fitting n s.lengths.now table };

    ghost Can = { λ s i u v y. CanStep s.lengths.now u y × CanLevel s.reach.now i u v };

    ghost take = { λ s i u v x y. closer x (brought y (label_length s.lengths.now u) (cell cell_place u i s.reach.now) (cell cell_place v i s.reach.now)) };

    // The nearer of v's entry and of what the edge brings.
    fn take(&self, i: usize, u: usize, v: usize, own: u32, there: u32) -> u32 {
        let level = self.reach[ROW * (u - 1) + i];
        let own_level = self.reach[ROW * (v - 1) + i];
        nearer(own, over_edge(there, self.lengths[u - 1], level, own_level))
    }

    ghost fits = { λ s n table f i u v wi wu wv. (steps_on f.0 f.2 i u wi wu, levels_on f.1 i u v wi wu wv) };

    ghost follows = { λ s m edges i. near_follows m s.lengths.now edges s.reach.now i };
}

// The least of its own and u's entry plus L(u) over all edges u to v: the rule of least walks.
#[derive(Drop)]
pub struct Walks<'a> {
    pub lengths: &'a [u32],
}

impl<'a> EdgeRule for Walks<'a> {
    ghost rules = { λ s m edges. onward m s.lengths.now edges };

    ghost Fits = { λ s n table. (n ≤ length s.lengths.now) × Fitting n s.lengths.now table };

    ghost Can = { λ s i u v y. CanStep s.lengths.now u y };

    ghost take = { λ s i u v x y. closer x (shift y (label_length s.lengths.now u)) };

    // The nearer of v's entry and of u's, further on.
    fn take(&self, _i: usize, u: usize, _v: usize, own: u32, there: u32) -> u32 {
        nearer(own, further(there, self.lengths[u - 1]))
    }

    ghost fits = { λ s n table f i u v wi wu wv. steps_on f.0 f.1 i u wi wu };

    ghost follows = { λ s m edges i. onward_follows m s.lengths.now edges i };
}
