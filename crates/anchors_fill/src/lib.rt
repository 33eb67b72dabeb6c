// Laying the content of an accepted anchor file into lent buffers: the letters of the read, and the numbers of the anchors.
#![tactic(auto)]

ghost use Rattle.std.specs.Prelude.{◌≡◌, ◌*◌, ◌≤◌, length};
ghost use Rattle.wire.specs.Lent.{laid};
ghost use Rattle.wire.specs.Sizes.{most_read, most_anchors, full_letters, full_anchors};
ghost use Rattle.graph_fill.specs.Filling.{numbers_in};
ghost use Rattle.anchors.specs.Anchors.{per_anchor};

use anchors::PER_ANCHOR;
use graph_fill::numbers::fill_numbers;
use wire::numbers::Cursor;
use wire::sizes::{FULL_ANCHORS, FULL_LETTERS};
use wire_lent::zero_rest;
use wire_letters::put_letters;

// The letters of the read.
pub fn fill_read(read: &[u8], letters: &mut [u8])
    requires { (length read.now ≤ most_read) × (full_letters ≤ length letters.old) }
    ensures { letters.new ≡ laid full_letters read.now letters.old }
{
    let r = put_letters(letters, read);
    zero_rest(letters, r, FULL_LETTERS);
}

// The numbers of n anchors, from the place `start` on.
pub fn fill_anchors(file: &[u8], start: usize, n: usize, anchors: &mut [u32])
    requires { (n ≤ most_anchors) × (full_anchors ≤ length anchors.old) }
    ensures { anchors.new ≡ laid full_anchors (numbers_in file.now (per_anchor * n) start).content anchors.old }
{
    fill_numbers(
        file,
        Cursor { at: start },
        PER_ANCHOR * n,
        &mut anchors[..FULL_ANCHORS],
    );
}
