// Where the reach table starts.
ghost use Rattle.std.specs.Prelude.{◌≡◌, ℕ, ◌+◌, ◌*◌, ◌≤◌, ◌<◌, length, get_or};
ghost use Rattle.wire.specs.Sizes.{table_row, most_vertices};
ghost use Rattle.cover.specs.TableRounds.{table_of, own};
ghost use Rattle.table_rounds.specs.Held.{PathsHeld, path_in};
ghost use Rattle.table_starts.specs.Starting.{OnTable, Owned};

use wire::sizes::{PATH_ROOM, ROW};
use wire_lent::zero_rest;

// The positions of one path's vertices, in column i (counted from 0), which is lent with 0 everywhere.
fn own_path(table: &mut [u32], path: &[u32], i: usize)
    requires i_lt_table_row { i < table_row }
    requires on_table { OnTable (length table.old) path.now }
    requires by_index { (v : ℕ) → get_or table.old (table_row * v + i) 0 ≡ 0 }
    ensures { Owned path.now (length path.now) i table.old table.new }
{
    for (j, v) in path.iter().enumerate() {
        table[ROW * (*v as usize - 1) + i] = (j + 1) as u32;
    }
}

// "reach starts at v's own position, or 0 off the path"
pub fn start_reach(table: &mut [u32], paths: &[u32], counts: &[u32], n: usize)
    requires n_le_most_vertices { (n ≤ most_vertices) × (length table.old ≡ table_row * n) }
    requires paths_held { PathsHeld n paths.now counts.now }
    ensures { table.new ≡ table_of n (λ v i. own (path_in paths.now counts.now i) v (length (path_in paths.now counts.now i))) }
{
    zero_rest(table, 0, ROW * n);
    for i in 0..ROW {
        let at = PATH_ROOM * i;
        let end = at + counts[i] as usize;
        own_path(table, &paths[at..end], i);
    }
}
