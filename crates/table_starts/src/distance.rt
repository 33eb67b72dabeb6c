// Where the distance table starts, over a finished reach table, and the distances that its rounds leave. In the rounds an entry is 0 where it
// is unknown, and d + 1 where it is d.
ghost use Rattle.std.specs.Prelude.{◌≡◌, ℕ, ◌+◌, ◌-◌, ◌*◌, ◌≤◌, length, get_or, drop};
ghost use Rattle.wire.specs.Sizes.{table_row, most_vertices, path_room, full_paths};
ghost use Rattle.rounds.specs.Place.{cell_place};
ghost use Rattle.rounds.specs.Table.{cell};
ghost use Rattle.cover.specs.TableRounds.{table_of, home, known};

use wire::sizes::{PATH_ROOM, ROW};

// The entry at which vertex v starts: r is its reach on the path that starts at the place `at`.
fn home_cell(paths: &[u32], at: usize, r: u32, v: usize) -> u32
    requires { at + r ≤ length paths.now }
    ensures { result ≡ home (drop at paths.now) r v }
{
    if r == 0 {
        return 0;
    }
    if paths[at + r as usize - 1] as usize == v {
        1
    } else {
        0
    }
}

// "distance at 0 where v is the reached vertex, else unknown"
pub fn start_distance(table: &mut [u32], reach: &[u32], paths: &[u32], n: usize)
    requires n_le_most_vertices { (n ≤ most_vertices) × (length table.old ≡ table_row * n) × (length reach.now ≡ table_row * n) × (full_paths ≤ length paths.now) }
    requires by_index { (q : ℕ) → get_or reach.now q 0 ≤ path_room }
    ensures { table.new ≡ table_of n (λ v i. home (drop (path_room * (i - 1)) paths.now) (cell cell_place v i reach.now) v) }
{
    for q in 0..ROW * n {
        table[q] = home_cell(paths, PATH_ROOM * (q % ROW), reach[q], q / ROW + 1);
    }
}

// The distances, of what the rounds left: an entry less 1, or 0 where it is unknown.
pub fn finish_distance(table: &mut [u32])
    ensures { table.new ≡ known table.old }
{
    for entry in table.iter_mut() {
        *entry = entry.saturating_sub(1);
    }
}
