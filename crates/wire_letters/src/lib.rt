// Letters in code: the class of a byte, when two letters agree, and letters written.
#![tactic(auto)]

ghost use Rattle.std.specs.Prelude.{◌≡◌, ◌≤◌, length};
ghost use Rattle.wire.specs.Letters.{letter_of, is_letter, agree};
ghost use Rattle.wire.specs.Lent.{front};

use wire::letters::Letter;

// The letter that a byte is, if it is one.
pub fn letter_of(byte: u8) -> Option<Letter>
    ensures { result ≡ letter_of byte }
{
    match byte {
        b'A' => Some(Letter::A),
        b'C' => Some(Letter::C),
        b'G' => Some(Letter::G),
        b'T' => Some(Letter::T),
        _ => None,
    }
}

// Whether a byte is a letter.
pub fn is_letter(byte: u8) -> bool
    ensures { result ≡ is_letter byte }
{
    letter_of(byte).is_some()
}

// Whether two bytes are letters that agree.
pub fn letters_agree(a: u8, b: u8) -> bool
    ensures { result ≡ agree a b }
{
    a == b && is_letter(a)
}

// Writes letters at the front of out, and says how many. The caller has seen that there is room.
pub fn put_letters(out: &mut [u8], letters: &[u8]) -> usize
    requires { length letters.now ≤ length out.old }
    ensures { (result ≡ length letters.now) × (out.new ≡ front letters.now out.old) }
{
    let n = letters.len();
    // No `copy_from_slice`: it would have the archive for C need `memmove`.
    for i in 0..n {
        out[i] = letters[i];
    }
    n
}
