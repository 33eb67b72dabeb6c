// The parts of a record, read from a reader. A number has four bytes, lowest first. Past the input's end everything reads as 0. The only error is the
// reader's own, passed on; a space that was lent then keeps its length, and holds what was read before it.
ghost use Rattle.std.specs.Prelude.{◌≡◌, ◌+◌, length, min, drop, IfOk, OnErr};
ghost use Rattle.caseinput.specs.Counts.{IsPrefixLen};
ghost use Rattle.caseinput.specs.Reading.{Reads, Fills, FillsAll, KeepsFile, byte_of, number_of};

use std::io;
use std::io::Read;

// Reads until the space is full or the input ends. The number of bytes read.
pub fn read_full<R: Read>(from: &mut R, space: &mut [u8]) -> io::Result<usize>
    ensures ok { IfOk result (λ n. IsPrefixLen n space.new) }
    ensures err { OnErr result (length space.new ≡ length space.old) }
    ensures fills { Fills (R.remaining from.old) (R.remaining from.new) result space.new }
{
    let mut n: usize = 0;
    // No `for`: a read says how many bytes it brought.
    while n < space.len() {
        let k = from.read(&mut space[n..])?;
        if k == 0 {
            return Ok(n);
        }
        n += k;
    }
    Ok(n)
}

// Reads a whole space; past the input's end it holds 0.
pub fn read_padded<R: Read>(from: &mut R, space: &mut [u8]) -> io::Result<()>
    ensures { FillsAll (R.remaining from.old) (R.remaining from.new) result space.new }
{
    let n = read_full(from, space)?;
    space[n..].fill(0);
    Ok(())
}

// Reads a record's kind.
pub fn read_kind<R: Read>(from: &mut R) -> io::Result<u8>
    ensures { Reads (R.remaining from.old) (R.remaining from.new) result byte_of (drop 1) }
{
    let mut one = [0u8; 1];
    read_padded(from, &mut one)?;
    Ok(one[0])
}

// Reads a number.
pub fn read_number<R: Read>(from: &mut R) -> io::Result<u32>
    ensures { Reads (R.remaining from.old) (R.remaining from.new) result number_of (drop 4) }
{
    let mut four = [0u8; 4];
    read_padded(from, &mut four)?;
    Ok(u32::from_le_bytes(four))
}

// Reads bytes and keeps none.
fn skip<R: Read>(from: &mut R, n: usize) -> io::Result<()>
    ensures { Reads (R.remaining from.old) (R.remaining from.new) result (λ _. tt) (drop n) }
{
    for _ in 0..n {
        read_kind(from)?;
    }
    Ok(())
}

// Reads a file of a record into space, as far as it has room; a file that is longer than that is too long in any case. The number of bytes kept.
pub fn read_file<R: Read>(from: &mut R, space: &mut [u8]) -> io::Result<usize>
    ensures ok { IfOk result (λ n. IsPrefixLen n space.new) }
    ensures err { OnErr result (length space.new ≡ length space.old) }
    ensures kept { KeepsFile (R.remaining from.old) (R.remaining from.new) result space.new }
{
    let n = read_number(from)? as usize;
    let kept = n.min(space.len());
    read_padded(from, &mut space[..kept])?;
    skip(from, n - kept)?;
    Ok(kept)
}
