// Loading a file: opened, read as far as a refusal needs, and closed.
ghost use Rattle.std.specs.Prelude.{◌+◌, ◌≤◌, length, ◌≡◌, IfSome};
ghost use Rattle.wire.specs.Sizes.{most_file_bytes};

use loaded::read_part;
use std::rt::Files;
use std::{fs, str};
use wire_lent::zeros;

// One byte more than a file may have, so that a longer file is seen to be longer.
pub fn file_room() -> [u8; 65537]
    ensures { most_file_bytes + 1 ≡ length result }
{
    zeros()
}

// The bytes of the file of that name, from its first. A file that is not opened, or not read to its end or as far as the room goes, is missing; so
// is one whose name is not text, which the library cannot open.
pub fn load<'a>(rt: &impl Files, path: &[u8], buf: &'a mut [u8]) -> Option<&'a [u8]>
    ensures { IfSome result (λ part. length part.now ≤ length buf.old) }
{
    let name = str::from_utf8(path).ok()?;
    let mut file = fs::open(rt, name).ok()?;
    read_part(&mut file, buf).ok()
}
