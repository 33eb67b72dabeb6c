// Answers cases of reading and writing a number. Standard input, of which 65,536 bytes are read, has one case a line, and each line is
// written with its answer:
//
//     read HEX at PLACE -> value V next P
//     read HEX at PLACE -> fault F place P
//     write V -> HEX
//
// HEX is bytes in hexadecimal digits, in upper case, or `-` for no bytes; V, P, F and PLACE are decimal numbers. For a line that is no
// case the program writes `not a case`.
#![tactic(auto)]

ghost use Rattle.std.specs.Prelude.{◌≡◌, ℕ, ◌≤◌, ◌<◌, length, take, drop, get_or, IfSome};
ghost use Rattle.numbercases.specs.Digits.{digit_byte};
ghost use Rattle.numbercases.specs.Cases.{DecimalOf, BytesOf};

use caseinput::input::read_full;
use std::io;
use std::io::Write;
use wire::numbers::{Cursor, group_count, put_number, read_number};
use wire::refusals::Fault;

// The first n bytes of s, or all where it has no more.
fn head(s: &[u8], n: usize) -> &[u8]
    ensures { result.now ≡ take n s.now }
{
    &s[..n.min(s.len())]
}

// What follows the first n bytes of s.
fn tail(s: &[u8], n: usize) -> &[u8]
    ensures { result.now ≡ drop n s.now }
{
    &s[n.min(s.len())..]
}

// The index of the first byte of s that equals b, or the length of s where there is none.
fn find(s: &[u8], b: u8) -> usize
    ensures within { result ≤ length s.now }
    ensures before { (k : ℕ) → k < result → get_or s.now k 0 ≡ b → ⊥ }
    ensures found { result < length s.now → get_or s.now result 0 ≡ b }
{
    s.iter().position(|x| *x == b).unwrap_or(s.len())
}

// The digit that a byte writes, where it writes one.
fn digit(b: u8) -> Option<u8>
    ensures { IfSome result (λ d. (d < 16) × (digit_byte d ≡ b)) }
{
    match b {
        b'0'..=b'9' => Some(b - b'0'),
        b'A'..=b'F' => Some(b - b'A' + 10),
        _ => None,
    }
}

// Reads s as a decimal number, where it is one. One above 1,000,000,000,009 counts as other text.
fn read_decimal(s: &[u8]) -> Option<u64>
    ensures { DecimalOf result s.now }
{
    if s.is_empty() {
        return None;
    }
    let mut value: u64 = 0;
    for b in s {
        let d = digit(*b)?;
        if 9 < d || 100000000000 < value {
            return None;
        }
        value = value * 10 + u64::from(d);
    }
    Some(value)
}

// Reads pairs of digits to the front of out, and says how many bytes they write. Text for more bytes than out has counts as other text.
fn read_pairs(s: &[u8], out: &mut [u8]) -> Option<usize>
    ensures { BytesOf result out.new s.now }
{
    let n = s.len() / 2;
    if out.len() < n {
        return None;
    }
    for i in 0..n {
        let high = digit(s[2 * i])?;
        let low = digit(s[2 * i + 1])?;
        out[i] = high * 16 + low;
    }
    Some(n)
}

// Reads HEX to the front of out: pairs of digits, or `-` for no bytes. How many bytes they write, where it is one.
fn read_hex(s: &[u8], out: &mut [u8]) -> Option<usize>
    ensures { BytesOf result out.new s.now }
{
    if s.len() == 1 && s[0] == b'-' {
        return Some(0);
    }
    if s.is_empty() || s.len() % 2 == 1 {
        return None;
    }
    read_pairs(s, out)
}

// Writes bytes as hexadecimal digits.
fn say_bytes(to: &mut impl Write, bytes: &[u8]) -> io::Result<()> {
    for b in bytes {
        write!(to, "{b:02X}")?;
    }
    Ok(())
}

// Writes that a line is not a case.
fn not_a_case(to: &mut impl Write) -> io::Result<()> {
    to.write_all(b"not a case\n")
}

// Writes what reading a number found.
fn say_found(to: &mut impl Write, found: Result<(u32, Cursor), Fault>) -> io::Result<()> {
    match found {
        Ok((value, next)) => {
            let at = next.at;
            writeln!(to, " -> value {value} next {at}")
        }
        Err(fault) => {
            let number = u32::from(fault.refusal);
            let place = fault.place;
            writeln!(to, " -> fault {number} place {place}")
        }
    }
}

// Answers the line `read HEX at PLACE`, of which `rest` is what follows `read `.
fn answer_read(to: &mut impl Write, line: &[u8], rest: &[u8]) -> io::Result<()> {
    let space = find(rest, b' ');
    let Some(place) = tail(rest, space).strip_prefix(b" at ") else {
        return not_a_case(to);
    };
    let Some(at) = read_decimal(place) else {
        return not_a_case(to);
    };
    let mut bytes = [0u8; 64];
    let Some(n) = read_hex(head(rest, space), &mut bytes) else {
        return not_a_case(to);
    };
    to.write_all(line)?;
    say_found(to, read_number(head(&bytes, n), Cursor { at: at as usize }))
}

// Writes how x is written: at most five bytes, as many as are counted.
fn say_written(to: &mut impl Write, x: u32) -> io::Result<()> {
    let counted = group_count(x);
    if 5 < counted {
        return to.write_all(b"group_count differs");
    }
    let mut out = [0u8; 5];
    let n = put_number(&mut out, x);
    if n != counted {
        return to.write_all(b"group_count differs");
    }
    say_bytes(to, head(&out, n))
}

// Answers the line `write V`, of which `rest` is what follows `write `.
fn answer_write(to: &mut impl Write, line: &[u8], rest: &[u8]) -> io::Result<()> {
    let Some(value) = read_decimal(rest) else {
        return not_a_case(to);
    };
    let Ok(x) = u32::try_from(value) else {
        return not_a_case(to);
    };
    to.write_all(line)?;
    to.write_all(b" -> ")?;
    say_written(to, x)?;
    to.write_all(b"\n")
}

// Answers one line.
fn answer(to: &mut impl Write, line: &[u8]) -> io::Result<()> {
    if let Some(rest) = line.strip_prefix(b"read ") {
        return answer_read(to, line, rest);
    }
    if let Some(rest) = line.strip_prefix(b"write ") {
        return answer_write(to, line, rest);
    }
    not_a_case(to)
}

// Answers every line of the text.
fn answer_all(to: &mut impl Write, text: &[u8]) -> io::Result<()> {
    let mut rest = text;
    while !rest.is_empty() {
        let n = find(rest, b'\n');
        answer(to, head(rest, n))?;
        rest = tail(rest, n + 1);
    }
    Ok(())
}

fn main(rt: HostRuntime) -> io::Result<()> {
    let mut space = [0u8; 65536];
    let n = read_full(&mut rt.stdin(), &mut space)?;
    answer_all(&mut rt.stdout(), head(&space, n))
}
