// Numbers in groups of seven bits: read at a cursor, counted, and written.
ghost use Rattle.std.specs.Prelude.{◌≡◌, ◌+◌, ◌*◌, ◌^◌, ◌≤◌, ◌<◌, length};
ghost use Rattle.wire.specs.Found.{reading};
ghost use Rattle.wire.specs.Numbers.{ended, number_at, encode};
ghost use Rattle.wire.specs.Lent.{front};

use crate::refusals::{Fault, Refusal};

// A place in a file, counted from 0.
#[derive(Clone, Copy)]
pub struct Cursor {
    pub at: usize,
}

// The last group b, at the place `at`, of a number that starts at `start`.
fn end_number(
    b: u32,
    start: usize,
    at: usize,
    weight: u32,
    value: u32,
) -> Result<(u32, Cursor), Fault>
    requires value_bound { b * weight + value < 2 ^ 32 }
    requires at_bound { at + 1 < 2 ^ 64 }
    ensures { reading result ≡ ended b start at weight value }
{
    if b == 0 {
        if start < at {
            return Err(Refusal::BadNumber.at(start));
        }
    }
    Ok((b * weight + value, Cursor { at: at + 1 }))
}

// Reads the number at a cursor, wherever that is.
pub fn read_number(bytes: &[u8], cursor: Cursor) -> Result<(u32, Cursor), Fault>
    ensures { reading result ≡ number_at bytes.now cursor.at }
{
    let start = cursor.at;
    let mut left: u32 = 4;
    let mut weight: u32 = 1;
    let mut value: u32 = 0;
    for at in start..bytes.len() {
        let b = bytes[at] as u32;
        if left == 0 {
            if 15 < b {
                return Err(Refusal::BadNumber.at(start));
            }
            return end_number(b, start, at, weight, value);
        }
        if b < 128 {
            return end_number(b, start, at, weight, value);
        }
        value = (b - 128) * weight + value;
        weight = weight * 128;
        left -= 1;
    }
    Err(Refusal::BytesEnd.at(bytes.len()))
}

// How many bytes x is written in.
pub fn group_count(x: u32) -> usize
    ensures { result ≡ length (encode x) }
{
    if x == 0 {
        return 1;
    }
    ((38 - u32::leading_zeros(x)) / 7) as usize
}

// Writes x at the front of out, and says how many bytes that took. The caller has seen that there is room.
pub fn put_number(out: &mut [u8], x: u32) -> usize
    requires { length (encode x) ≤ length out.old }
    ensures { (result ≡ length (encode x)) × (out.new ≡ front (encode x) out.old) }
{
    let mut rest = x;
    let mut at = 0;
    while 127 < rest {
        out[at] = (rest % 128 + 128) as u8;
        rest = rest / 128;
        at += 1;
    }
    out[at] = rest as u8;
    at + 1
}
