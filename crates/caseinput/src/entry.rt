// The entries of a record's buffers: letters of 1 byte, and numbers of 4, lowest first.
ghost use Rattle.std.specs.Prelude.{◌≡◌, ℕ, List, length, min, drop, IfOk, OnErr};
ghost use Rattle.caseinput.specs.Counts.{IsPrefixLen};
ghost use Rattle.caseinput.specs.Digest.{digest_byte, digest_number, digest_all};
ghost use Rattle.caseinput.specs.Reading.{Reads, ReadsInto, after_run, after_buffer, byte_of, number_of};

use crate::digest::{put_byte, put_number};
use crate::input::{read_kind, read_number};
use std::io;
use std::io::Read;

// An entry: how many bytes it takes, which entry they are, and the digest with it more.
pub trait Entry: Copy {
    ghost size: { ℕ };

    ghost value: { List ℕ → Self };

    ghost digest: { ℕ → Self → ℕ };

    fn read<R: Read>(from: &mut R) -> io::Result<Self>
        ensures { Reads (R.remaining from.old) (R.remaining from.new) result value (drop size) };

    fn put(self, h: u64) -> u64
        ensures { result ≡ digest h self };
}

impl Entry for u8 {
    ghost size = { 1 };

    ghost value = { byte_of };

    ghost digest = { digest_byte };

    fn read<R: Read>(from: &mut R) -> io::Result<u8> {
        read_kind(from)
    }

    fn put(self, h: u64) -> u64 {
        put_byte(h, self)
    }
}

impl Entry for u32 {
    ghost size = { 4 };

    ghost value = { number_of };

    ghost digest = { digest_number };

    fn read<R: Read>(from: &mut R) -> io::Result<u32> {
        read_number(from)
    }

    fn put(self, h: u64) -> u64 {
        put_number(h, self)
    }
}

// The digest with all of a list more.
pub fn put_all<T: Entry>(h: u64, xs: &[T]) -> u64
    ensures { result ≡ digest_all T.digest h xs.now }
{
    xs.iter().fold(h, |digest, x| x.put(digest))
}

// Reads a run of entries: its first place, how many, the entries. One whose place is not there is read all the same.
fn read_run<T: Entry, R: Read>(from: &mut R, space: &mut [T]) -> io::Result<()>
    ensures { ReadsInto (R.remaining from.old) (R.remaining from.new) result space.old space.new (λ _. tt) (after_run T.value T.size space.old) }
{
    let at = read_number(from)? as usize;
    let n = read_number(from)? as usize;
    for i in 0..n {
        let x = T::read(from)?;
        if at + i < space.len() {
            space[at + i] = x;
        }
    }
    Ok(())
}

// Reads a buffer into space that holds zeros: its size, how many runs of other places, the runs. The buffer's size, as far as there is room.
pub fn read_buffer<T: Entry, R: Read>(from: &mut R, space: &mut [T]) -> io::Result<usize>
    ensures ok { IfOk result (λ n. IsPrefixLen n space.new) }
    ensures err { OnErr result (length space.new ≡ length space.old) }
    ensures read { ReadsInto (R.remaining from.old) (R.remaining from.new) result space.old space.new (λ xs. min (number_of xs) (length space.old)) (after_buffer T.value T.size space.old) }
{
    let size = read_number(from)? as usize;
    let runs = read_number(from)?;
    for _ in 0..runs {
        read_run(from, space)?;
    }
    Ok(size.min(space.len()))
}
