// The rounds of a table by any rule: a vertex's row over the edges into it, one round, and rounds until one is quiet.
ghost use Rattle.std.specs.Prelude.{◌≡◌, ◌≢◌, ℕ, ◌+◌, ◌*◌, ◌<◌, length, get_or};
ghost use Rattle.wire.specs.Sizes.{table_row};
ghost use Rattle.rounds.specs.Rounds.{Within, Rounds, sweep, iterate};
ghost use Rattle.rounds.specs.Place.{cell_place};
ghost use Rattle.rounds.specs.Table.{cell, row_step, table_round};
ghost use Rattle.rounds.specs.Loop.{Told, Ends};
ghost use Rattle.table_rows.specs.Lanes.{Lanes};
ghost use Rattle.table_lanes.specs.Follows.{gathered};

use table_lanes::{EdgeRule, row_at, take_row};
use table_rows::in_edges::InEdges;
use table_rows::rows::store_row;
use wire::sizes::ROW;

// What a row of vertex v becomes over the edges into v. Inlined, so that the row stays in registers.
#[inline(always)]
pub fn gathered<R: EdgeRule>(
    rule: &R,
    edges: &InEdges<'_>,
    table: &[u32],
    first: [u32; 16],
    v: usize,
) -> [u32; 16]
    requires within { Within edges.now.n v }
    requires table_len { length table.now ≡ table_row * edges.now.n }
    requires fits { R.Fits rule.now edges.now.n table.now }
    ensures { Lanes result (λ i. gathered (R.rules rule.now edges.now.m edges.now.list (i + 1)) (λ u. cell cell_place u (i + 1) table.now) v (get_or first i 0)) }
{
    let mut row = first;
    let mut e = edges.first(v);
    // No `for`: the edges into a vertex are a list, of which each names the next.
    while e != 0 {
        let u = edges.source(e);
        let next = take_row(rule, row, table, u, v);
        row = next;
        e = edges.next(e);
    }
    row
}

// Makes one round, and says whether it changed anything.
fn one_round<R: EdgeRule>(rule: &R, edges: &InEdges<'_>, table: &mut [u32]) -> bool
    requires table_len { length table.old ≡ table_row * edges.now.n }
    requires fits { (v : ℕ) → v < edges.now.n → R.Fits rule.now edges.now.n (sweep (row_step cell_place (R.rules rule.now edges.now.m edges.now.list) table_row) v table.old) }
    ensures table_after { table.new ≡ table_round cell_place (R.rules rule.now edges.now.m edges.now.list) table_row edges.now.n table.old }
    ensures told { Told result (table.new ≢ table.old) (table.new ≡ table.old) }
{
    let mut changed = false;
    for v in 0..edges.vertices() {
        let own = row_at(table, ROW * v);
        let row = gathered(rule, edges, table, own, v + 1);
        if store_row(table, v + 1, row) {
            changed = true;
        }
    }
    changed
}

// Makes rounds until one is quiet, and counts them all.
pub fn settle<R: EdgeRule>(rule: &R, edges: &InEdges<'_>, table: &mut [u32]) -> u32
    requires table_len { length table.old ≡ table_row * edges.now.n }
    requires ends { Ends edges.now.n (table_round cell_place (R.rules rule.now edges.now.m edges.now.list) table_row edges.now.n) table.old }
    requires fits { (k v : ℕ) → v < edges.now.n → R.Fits rule.now edges.now.n
        (sweep (row_step cell_place (R.rules rule.now edges.now.m edges.now.list) table_row) v (iterate (table_round cell_place (R.rules rule.now edges.now.m edges.now.list) table_row edges.now.n) k table.old)) }
    ensures { Rounds (table_round cell_place (R.rules rule.now edges.now.m edges.now.list) table_row edges.now.n) table.old result table.new }
{
    let mut count = 0;
    let mut changed = true;
    // No `for`: how many rounds there are is the answer.
    while changed {
        changed = one_round(rule, edges, table);
        count += 1;
    }
    count
}
