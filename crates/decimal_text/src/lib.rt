// Numbers in base ten, and words with numbers after them, each laid into the lent-on rest of an output. The caller has seen that there is room.
#![tactic(auto)]

ghost use Rattle.std.specs.Prelude.{◌≡◌, ◌≤◌, length};
ghost use Rattle.wire.specs.Lent.{front};
ghost use Rattle.decimal_text.specs.Decimal.{decimal};
ghost use Rattle.decimal_text.specs.Words.{said, told, parts_in};

use wire_letters::put_letters;

// Writes a number in base ten: the digits before the last, and the last.
pub fn put_decimal(out: &mut [u8], x: u64) -> usize
    requires { length (decimal x) ≤ length out.old }
    ensures { (result ≡ length (decimal x)) × (out.new ≡ front (decimal x) out.old) }
{
    if x < 10 {
        out[0] = (x + 48) as u8;
        return 1;
    }
    let at = put_decimal(out, x / 10);
    out[at] = (x % 10 + 48) as u8;
    at + 1
}

// Writes a word and a number after it.
pub fn put_said(out: &mut [u8], word: &[u8], n: u32) -> usize
    requires { length (said word.now n) ≤ length out.old }
    ensures { (result ≡ length (said word.now n)) × (out.new ≡ front (said word.now n) out.old) }
{
    let mut at = put_letters(out, word);
    at += put_decimal(&mut out[at..], n as u64);
    at
}

// Writes a line of words, each with its number.
pub fn put_told(out: &mut [u8], parts: &[(&[u8], u32)]) -> usize
    requires { length (told (parts_in parts.now)) ≤ length out.old }
    ensures { (result ≡ length (told (parts_in parts.now)))
        × (out.new ≡ front (told (parts_in parts.now)) out.old) }
{
    let mut at = 0;
    for (word, n) in parts {
        at += put_said(&mut out[at..], word, *n);
    }
    out[at] = b'\n';
    at + 1
}
