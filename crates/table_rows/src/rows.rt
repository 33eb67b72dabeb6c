// The cells of a table, and a row of sixteen of them, one for each path, written back.
ghost use Rattle.std.specs.Prelude.{◌≡◌, ◌+◌, ◌-◌, ◌*◌, ◌≤◌, ◌<◌, ◌^◌, max, length};
ghost use Rattle.wire.specs.Sizes.{table_row};
ghost use Rattle.rounds.specs.Place.{cell_place};
ghost use Rattle.rounds.specs.Kinds.{shift, closer};
ghost use Rattle.rounds.specs.Loop.{Told, RowMoved};
ghost use Rattle.table_rows.specs.Lanes.{how_far, brought, put_row};

use wire::sizes::ROW;

// How far a distance entry is: d + 1 is the distance d, and 0, unknown, wraps to the greatest number, further than any distance.
fn how_far(x: u32) -> u32
    ensures { result ≡ how_far x }
{
    x.wrapping_sub(1)
}

// The nearer of two distance entries.
pub fn nearer(x: u32, y: u32) -> u32
    ensures { result ≡ closer x y }
{
    if how_far(y) < how_far(x) { y } else { x }
}

// A distance entry, `far` further on.
pub fn further(x: u32, far: u32) -> u32
    requires { x + far < 2 ^ 32 }
    ensures { result ≡ shift x far }
{
    if x == 0 { 0 } else { x + far }
}

// What an edge brings to a distance entry: nothing where the reach cells of its two vertices, `there` and `here`, differ.
pub fn over_edge(x: u32, far: u32, there: u32, here: u32) -> u32
    requires { x + far < 2 ^ 32 }
    ensures { result ≡ brought x far there here }
{
    if there == here { further(x, far) } else { 0 }
}

// Writes a row as the row of vertex v, and says whether a cell of it changed.
pub fn store_row(table: &mut [u32], v: usize, row: [u32; 16]) -> bool
    requires { (1 ≤ v) × (table_row * v ≤ length table.old) }
    ensures table_after { table.new ≡ put_row v row table.old }
    ensures told { Told result (RowMoved cell_place table_row v table.old table.new) (table.new ≡ table.old) }
{
    let mut changed = false;
    for i in 0..ROW {
        let at = ROW * (v - 1) + i;
        let old = table[at];
        table[at] = row[i];
        if old != row[i] {
            changed = true;
        }
    }
    changed
}
