// Full sizes: rule 13 of the entries that are lent the content of an anchor file.
ghost use Rattle.std.specs.Prelude.{◌≡◌};
ghost use Rattle.anchors.specs.AnchorEntries.{room_for_anchors};

use wire::sizes::{FULL_ANCHORS, FULL_LETTERS};

// Whether each buffer has full size, by its length.
pub fn roomy(letters: usize, anchors: usize) -> bool
    ensures { result ≡ room_for_anchors letters anchors }
{
    FULL_LETTERS <= letters && FULL_ANCHORS <= anchors
}
