// What the programs with the cases of document 01 write with: text, numbers, bytes, and how many places of a buffer hold a number. The only error is
// the writer's own, passed on; what was written before it is written.
#![tactic(auto)]

ghost use Rattle.std.specs.Prelude.{◌≡◌, ◌++◌, OnOk, take, drop, count_by};
ghost use Rattle.std.specs.Fmt.{decimal};
ghost use Rattle.std.specs.Io.KnownBytes.{Appends};
ghost use Rattle.telling.specs.Said.{byte_text, bytes_text, numbers_text};

use std::io;
use std::io::Write;

// What every place of a lent buffer of bytes holds before a call.
pub const BYTE_BEFORE: u8 = 0xEE;

// The same in a buffer of numbers.
pub const NUMBER_BEFORE: u32 = 4294967295;

// Writes text.
pub fn say<W: Write>(to: &mut W, text: &[u8]) -> io::Result<()>
    ensures { OnOk result (Appends (W.contents to.old) (W.contents to.new) text.now) }
{
    to.write_all(text)
}

// Writes text and a number.
pub fn say_number<W: Write>(to: &mut W, text: &[u8], x: u64) -> io::Result<()>
    ensures { OnOk result (Appends (W.contents to.old) (W.contents to.new) (text.now ++ decimal x)) }
{
    say(to, text)?;
    write!(to, "{x}")
}

// Writes a byte's two hexadecimal digits.
#[tactic(auto, using(std::proofs::lemmas::Fmt::hex_byte))]
fn say_byte<W: Write>(to: &mut W, b: u8) -> io::Result<()>
    ensures { OnOk result (Appends (W.contents to.old) (W.contents to.new) (byte_text b)) }
{
    write!(to, " {b:02x}")
}

// Writes the first n bytes as hexadecimal digits.
pub fn say_bytes<W: Write>(to: &mut W, bytes: &[u8], n: usize) -> io::Result<()>
    ensures { OnOk result (Appends (W.contents to.old) (W.contents to.new) (bytes_text (take n bytes.now))) }
{
    for b in &bytes[..n.min(bytes.len())] {
        say_byte(to, *b)?;
    }
    Ok(())
}

// Writes the numbers of n places from a place on.
pub fn say_numbers<W: Write>(to: &mut W, numbers: &[u32], from: usize, n: usize) -> io::Result<()>
    ensures { OnOk result (Appends (W.contents to.old) (W.contents to.new) (numbers_text (take n (drop from numbers.now)))) }
{
    let rest = &numbers[from.min(numbers.len())..];
    for x in &rest[..n.min(rest.len())] {
        write!(to, " {x}")?;
    }
    Ok(())
}

// How many elements are x.
pub fn count<T: PartialEq + Copy>(xs: &[T], x: T) -> u64
    ensures { result ≡ count_by (λ y. T.eq y x) xs.now }
{
    let mut n: u64 = 0;
    // No `filter` and `count`: they take twice the instructions (measured).
    for y in xs {
        if *y == x {
            n += 1;
        }
    }
    n
}
