// The edges of an accepted file: two numbers for each.
ghost use Rattle.std.specs.Prelude.{◌≡◌, ◌*◌, ◌≤◌, length};
ghost use Rattle.wire.specs.Lent.{laid};
ghost use Rattle.wire.specs.Sizes.{most_edges, full_edges};
ghost use Rattle.graph_fill.specs.Filling.{numbers_in};

use graph_fill::numbers::fill_numbers;
use wire::numbers::Cursor;
use wire::sizes::FULL_EDGES;

// The m edges from the place `start` on.
pub fn fill_edges(file: &[u8], start: usize, m: usize, out: &mut [u32])
    requires { (m ≤ most_edges) × (full_edges ≤ length out.old) }
    ensures { out.new ≡ laid full_edges (numbers_in file.now (2 * m) start).content out.old }
{
    fill_numbers(file, Cursor { at: start }, 2 * m, &mut out[..FULL_EDGES]);
}
