// Texts that the programs' cases are kept in and written by: a text of several parts, each ended by `|`, and a text with places for numbers.
// (A program's check grows with its texts much faster than with their bytes: one text for many cases keeps it short.)
#![tactic(auto)]

ghost use Rattle.std.specs.Prelude.{◌≡◌, OnOk, drop};
ghost use Rattle.std.specs.Io.KnownBytes.{Appends};
ghost use Rattle.telling.specs.Counts.{times_in};
ghost use Rattle.texts.specs.Filled.{first_text, filled};
ghost use Rattle.texts.specs.Parts.{part_of};

use std::io;
use std::io::Write;

// What ends each part of a text.
pub const MARK: u8 = b'|';

// How many parts a text has.
#[tactic(auto, using(telling::proofs::Counting::count_is_times))]
pub fn parts(text: &[u8]) -> usize
    ensures { result ≡ times_in 124 text.now }
{
    telling::count(text, MARK) as usize
}

// The part of a text after k marks, up to the next; the empty part where there is none.
pub fn part(text: &[u8], k: usize) -> &[u8]
    ensures { result.now ≡ part_of k text.now }
{
    let mut left = k;
    let mut start: usize = 0;
    for (i, b) in text.iter().enumerate() {
        if *b == MARK {
            if left == 0 {
                return &text[start..i];
            }
            left -= 1;
            start = i + 1;
        }
    }
    &[]
}

// Writes the number at a place, where it is there.
fn say_place<W: Write>(to: &mut W, numbers: &[u64], at: usize) -> io::Result<()>
    ensures { OnOk result (Appends (W.contents to.old) (W.contents to.new) (first_text (drop at numbers.now))) }
{
    match numbers.get(at) {
        Some(x) => write!(to, "{x}"),
        None => Ok(()),
    }
}

// Writes a text, with the next of the numbers in place of each `#`. The only error is the writer's own, passed on.
pub fn say_filled<W: Write>(to: &mut W, text: &[u8], numbers: &[u64]) -> io::Result<()>
    ensures { OnOk result (Appends (W.contents to.old) (W.contents to.new) (filled text.now numbers.now)) }
{
    let mut at: usize = 0;
    let mut start: usize = 0;
    for (i, b) in text.iter().enumerate() {
        if *b == b'#' {
            to.write_all(&text[start..i])?;
            say_place(to, numbers, at)?;
            at += 1;
            start = i + 1;
        }
    }
    to.write_all(&text[start..])
}
