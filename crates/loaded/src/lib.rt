// What loading the two files gave: a file's bytes, or that there is none; and which of the two is missing.
#![tactic(auto)]

ghost use Rattle.std.specs.Prelude.{◌≡◌, ◌≤◌, Some, IfOk, IfErr, IfSome, length, take, replicate, option_copied};
ghost use Rattle.loaded.specs.Files.{read, file_in, missing_of, number_of};

use std::io;
use std::io::Read;

#[cfg(test)]
mod tests; // tests.rt: a room's places

// The file of the two that cannot be opened or read.
#[derive(Clone, Copy, Debug, PartialEq, Eq)]
pub enum Missing {
    Graph,
    Anchors,
}

// The number by which the listing names it.
impl From<Missing> for u32 {
    ghost from_gives = { λ file n. n ≡ number_of file };

    fn from(file: Missing) -> u32 {
        match file {
            Missing::Graph => 1,
            Missing::Anchors => 2,
        }
    }
}

// The bytes of both files, or the one that is missing, the graph file first.
pub fn both_files<'a>(
    g: Option<&'a [u8]>,
    a: Option<&'a [u8]>,
) -> Result<(&'a [u8], &'a [u8]), Missing>
    ensures both { IfOk result (λ files. (file_in (option_copied g.entry) ≡ read files.0.now)
        × (file_in (option_copied a.entry) ≡ read files.1.now)) }
    ensures one_missing { IfErr result (λ file. missing_of (file_in (option_copied g.entry)) (file_in (option_copied a.entry)) ≡ Some file) }
{
    let graph = g.ok_or(Missing::Graph)?;
    let anchors = a.ok_or(Missing::Anchors)?;
    Ok((graph, anchors))
}

// What a reader gives up to its end, or as much of it as the room holds.
pub fn read_part<'a, R: Read>(file: &mut R, room: &'a mut [u8]) -> io::Result<&'a [u8]>
    ensures in_room { IfOk result (λ part. length part.now ≤ length room.old) }
    ensures gave { IfOk result (λ part. IfSome (R.remaining file.old) (λ xs. part.now ≡ take (length room.old) xs)) }
{
    let mut n = 0;
    // No `for`: a read says how many bytes it brought.
    while n < room.len() {
        let k = file.read(&mut room[n..])?;
        if k == 0 {
            break;
        }
        n += k;
    }
    Ok(&room[..n])
}

// A room of N places that hold x.
pub fn room<T: Copy, const N: usize>(x: T) -> [T; N]
    ensures size { N ≡ length result }
    ensures holds { result ≡ replicate N x }
{
    [x; N]
}
