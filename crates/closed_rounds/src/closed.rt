// Closed walks: the least walks from sixteen vertices at a time, by rounds like those of distance but over every edge, and then one edge more.
ghost use Rattle.std.specs.Prelude.{◌≡◌, ◌∷◌, [], ℕ, ◌+◌, ◌*◌, ◌≤◌, ◌<◌, length};
ghost use Rattle.wire.specs.Sizes.{table_row, most_vertices};
ghost use Rattle.rounds.specs.Rounds.{Within};
ghost use Rattle.rounds.specs.Table.{entry};
ghost use Rattle.cover.specs.TableRounds.{home};
ghost use Rattle.closed_rounds.specs.Closing.{sixteen_start, Closable, ClosedBy};

use distance_rounds::Walks;
use table_rounds::by_rule::settle;
use table_rows::in_edges::InEdges;
use walk_back::walk_back;
use wire::sizes::ROW;

// 1, the distance 0, where the two are the same, else 0, unknown. (The proof of `u32::from(a == b)` did not close.)
fn same_cell(a: usize, b: usize) -> u32
    ensures { result ≡ home (a ∷ []) 1 b }
{
    if a == b { 1 } else { 0 }
}

// Column i starts at the vertex base + i.
fn start_sixteen(table: &mut [u32], base: usize, n: usize)
    requires { (n ≤ most_vertices) × (base < n) × (length table.old ≡ table_row * n) }
    ensures { table.new ≡ sixteen_start n base }
{
    for q in 0..ROW * n {
        table[q] = same_cell(base + q % ROW + 1, q / ROW + 1);
    }
}

// The closed walks of the sixteen vertices after `base`, as far as they are there.
fn close_sixteen(
    closed: &mut [u32],
    table: &mut [u32],
    walks: &Walks<'_>,
    edges: &InEdges<'_>,
    base: usize,
)
    requires labelled { (edges.now.n ≤ length walks.now.lengths.now) × (length closed.old ≡ edges.now.n) }
    requires table_len { length table.old ≡ table_row * edges.now.n }
    requires closable { Closable edges.now.n edges.now.m walks.now.lengths.now edges.now.list }
    requires base_in_bounds { base < edges.now.n }
    ensures by_index { (v : ℕ) → Within base v → entry v closed.new ≡ entry v closed.old }
    ensures by_index_2 { (v : ℕ) → base < v → v ≤ base + table_row → v ≤ edges.now.n → ClosedBy edges.now.n edges.now.m walks.now.lengths.now edges.now.list v (entry v closed.new) }
{
    let n = edges.vertices();
    start_sixteen(table, base, n);
    settle(walks, edges, table);
    for i in 0..ROW {
        let v = base + i;
        if v < n {
            closed[v] = walk_back(walks, edges, table, v + 1, i);
        }
    }
}

// The closed walks of all vertices.
pub fn closed_walks(closed: &mut [u32], table: &mut [u32], walks: &Walks<'_>, edges: &InEdges<'_>)
    requires labelled { (edges.now.n ≤ length walks.now.lengths.now) × (length closed.old ≡ edges.now.n) }
    requires table_len { length table.old ≡ table_row * edges.now.n }
    requires closable { Closable edges.now.n edges.now.m walks.now.lengths.now edges.now.list }
    ensures { (v : ℕ) → Within edges.now.n v → ClosedBy edges.now.n edges.now.m walks.now.lengths.now edges.now.list v (entry v closed.new) }
{
    for sixteen in 0..edges.vertices().div_ceil(ROW) {
        close_sixteen(closed, table, walks, edges, ROW * sixteen);
    }
}
