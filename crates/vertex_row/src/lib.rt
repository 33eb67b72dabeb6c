// The row of one vertex v: for every other vertex the cover distance to v plus 1, and for v itself its closed walk plus 1; 0 where there is none.
#![tactic(auto)]

ghost use Rattle.std.specs.Prelude.{◌≡◌, length};
ghost use Rattle.rounds.specs.Rounds.{Within};
ghost use Rattle.steps.specs.Setting.{row_in};
ghost use Rattle.steps.specs.Rowing.{Stands};

use row_parts::{back_along, closed_entry};
use steps::setting::Tables;

// The row of v, in an entry for each vertex, over the paths.
pub fn make_row(row: &mut [u32], v: u32, t: &Tables<'_>)
    requires within { Within t.now.n v × (length row.old ≡ t.now.n) }
    ensures { row.new ≡ row_in t.now v }
{
    row.fill(0);
    for i in 0..t.k {
        let at = wire::sizes::ROW * (v as usize - 1) + i;
        back_along(
            row,
            t.lengths,
            &t.paths[wire::sizes::PATH_ROOM * i..],
            t.reach[at],
            t.distance[at],
        );
    }
    row[v as usize - 1] = closed_entry(t.closed[v as usize - 1]);
}

// The row of v, where the row of the vertex `stands` is in place, if that of any: it is made anew only for another vertex.
pub fn row_for(row: &mut [u32], stands: Option<u32>, v: u32, t: &Tables<'_>)
    requires within { Within t.now.n v × (length row.old ≡ t.now.n) × Stands t.now stands row.old }
    ensures { row.new ≡ row_in t.now v }
{
    if stands != Some(v) {
        make_row(row, v, t);
    }
}
