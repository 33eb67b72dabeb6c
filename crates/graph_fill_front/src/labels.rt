// The labels of an accepted file: their letters, packed, and their lengths.
ghost use Rattle.std.specs.Prelude.{◌≡◌, ◌≤◌, length};
ghost use mathlib.Core.List.{map, flatten};
ghost use Rattle.wire.specs.Found.{good};
ghost use Rattle.wire.specs.Lent.{laid};
ghost use Rattle.wire.specs.Sizes.{full_letters, full_lengths};
ghost use Rattle.graph.specs.Reading.{labels_from};
ghost use Rattle.graph_fill.specs.Filling.{labels_in};

use graph_fill::numbers::take_number;
use wire::numbers::Cursor;
use wire::sizes::{FULL_LENGTHS, FULL_LETTERS};
use wire_lent::zero_rest;
use wire_letters::put_letters;

// The n labels from the place `start` on, which the check has accepted.
pub fn fill_labels(file: &[u8], start: usize, n: usize, letters: &mut [u8], lengths: &mut [u32])
    requires start_value { labels_from n 0 file.now start ≡ good (labels_in file.now n start) }
    requires n_le_full_lengths { (n ≤ full_lengths) × (full_letters ≤ length letters.old) × (full_lengths ≤ length lengths.old) }
    ensures { (letters.new ≡ laid full_letters (flatten (labels_in file.now n start).content) letters.old) × (lengths.new ≡ laid full_lengths (map length (labels_in file.now n start).content) lengths.old) }
{
    let mut cursor = Cursor { at: start };
    let mut sum: usize = 0;
    for place in lengths[..n].iter_mut() {
        let (length, first) = take_number(file, cursor);
        *place = length;
        let end = first.at + length as usize;
        sum += put_letters(&mut letters[sum..], &file[first.at..end]);
        cursor = Cursor { at: end };
    }
    zero_rest(letters, sum, FULL_LETTERS);
    zero_rest(lengths, n, FULL_LENGTHS);
}
