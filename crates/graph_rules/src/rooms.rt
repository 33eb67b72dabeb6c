// Full sizes: rule 13 of the entries that are lent a graph's content.
ghost use Rattle.std.specs.Prelude.{◌≡◌};
ghost use Rattle.graph.specs.Entries.{room_for};

use wire::sizes::{FULL_COUNTS, FULL_EDGES, FULL_LENGTHS, FULL_LETTERS, FULL_PATHS};

// Whether each buffer has full size, by its length.
pub fn roomy(letters: usize, lengths: usize, edges: usize, paths: usize, counts: usize) -> bool
    ensures { result ≡ room_for letters lengths edges paths counts }
{
    FULL_LETTERS <= letters
        && FULL_LENGTHS <= lengths
        && FULL_EDGES <= edges
        && FULL_PATHS <= paths
        && FULL_COUNTS <= counts
}
