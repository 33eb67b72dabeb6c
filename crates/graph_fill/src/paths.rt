// The paths of an accepted file: each in its room, and their vertex counts.
ghost use Rattle.std.specs.Prelude.{◌≡◌, map, ◌≤◌, length};
ghost use Rattle.wire.specs.Lent.{laid};
ghost use Rattle.wire.specs.Sizes.{path_room, full_paths, full_counts};
ghost use Rattle.graph.specs.Content.{path_numbers};
ghost use Rattle.graph.specs.Good.{All};
ghost use Rattle.graph_fill.specs.Filling.{paths_in};

use crate::numbers::{fill_numbers, take_number};
use wire::numbers::Cursor;
use wire::sizes::{FULL_COUNTS, FULL_PATHS, PATH_ROOM};
use wire_lent::zero_rest;

// The k paths from the place `start` on, none of which has more vertices than its room has places.
pub fn fill_paths(file: &[u8], start: usize, k: usize, paths: &mut [u32], counts: &mut [u32])
    requires all { All (λ p. length p ≤ path_room) (paths_in file.now k start).content }
    requires k_le_full_counts { (k ≤ full_counts) × (full_paths ≤ length paths.old) × (full_counts ≤ length counts.old) }
    ensures { (paths.new ≡ laid full_paths (path_numbers (paths_in file.now k start).content) paths.old) × (counts.new ≡ laid full_counts (map length (paths_in file.now k start).content) counts.old) }
{
    let mut cursor = Cursor { at: start };
    for (i, place) in counts[..k].iter_mut().enumerate() {
        let (count, first) = take_number(file, cursor);
        *place = count;
        let room = &mut paths[PATH_ROOM * i..PATH_ROOM * (i + 1)];
        cursor = fill_numbers(file, first, count as usize, room);
    }
    zero_rest(paths, PATH_ROOM * k, FULL_PATHS);
    zero_rest(counts, k, FULL_COUNTS);
}
