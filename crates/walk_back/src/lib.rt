// The least walk back to where it started: over a last edge, by a table that has the walks to that edge.
#![tactic(auto)]

ghost use Rattle.std.specs.Prelude.{◌≡◌, ◌+◌, ◌-◌, ◌*◌, ◌≤◌, ◌<◌, length};
ghost use Rattle.wire.specs.Sizes.{table_row};
ghost use Rattle.rounds.specs.Rounds.{Within};
ghost use Rattle.table_rounds.specs.Held.{Fitting};
ghost use Rattle.walk_back.specs.Back.{back_by};

use distance_rounds::Walks;
use table_rounds::by_rule::gathered;
use table_rows::in_edges::InEdges;

// The least walk from the vertex of column i (counted from 0) to v over a last edge, where the table has the walks to that edge.
pub fn walk_back(walks: &Walks<'_>, edges: &InEdges<'_>, table: &[u32], v: usize, i: usize) -> u32
    requires labelled { edges.now.n ≤ length walks.now.lengths.now }
    requires table_len { length table.now ≡ table_row * edges.now.n }
    requires fitting { Fitting edges.now.n walks.now.lengths.now table.now }
    requires within { Within edges.now.n v }
    requires i_lt_table_row { i < table_row }
    ensures { result ≡ back_by walks.now.lengths.now edges.now.list table.now v (i + 1) edges.now.m - 1 }
{
    let unknown = [0u32; 16];
    let back = gathered(walks, edges, table, unknown, v);
    back[i].saturating_sub(1)
}
