// The numbers of an accepted section, taken one after the other. The check has seen that each of them is there.
ghost use Rattle.std.specs.Prelude.{◌≡◌, ◌≤◌, length};
ghost use Rattle.wire.specs.Lent.{padded};
ghost use Rattle.graph_fill.specs.Filling.{one_number, numbers_in};

use wire::numbers::{Cursor, read_number};

// The number at a cursor, with the cursor after it; where there is none, 0 that takes no byte.
#[tactic(auto, unfolding(crate::specs::Filling::one_number))]
pub fn take_number(file: &[u8], cursor: Cursor) -> (u32, Cursor)
    ensures { (result.0 ≡ (one_number file.now cursor.at).content) × (result.1.at ≡ (one_number file.now cursor.at).next) }
{
    let Ok((value, next)) = read_number(file, cursor) else {
        return (0, cursor);
    };
    (value, next)
}

// Fills `out` with numbers of the file, from a cursor on, and says the cursor after them.
pub fn take_numbers(file: &[u8], start: Cursor, out: &mut [u32]) -> Cursor
    ensures { (result.at ≡ (numbers_in file.now (length out.old) start.at).next) × (out.new ≡ (numbers_in file.now (length out.old) start.at).content) }
{
    let mut cursor = start;
    for place in out.iter_mut() {
        (*place, cursor) = take_number(file, cursor);
    }
    cursor
}

// Numbers of the file in the first `count` places of a room, from a cursor on, and 0 in the others; says the cursor after the numbers.
pub fn fill_numbers(file: &[u8], start: Cursor, count: usize, room: &mut [u32]) -> Cursor
    requires { count ≤ length room.old }
    ensures { (result.at ≡ (numbers_in file.now count start.at).next) × (room.new ≡ padded (length room.old) (numbers_in file.now count start.at).content) }
{
    let next = take_numbers(file, start, &mut room[..count]);
    room[count..].fill(0);
    next
}
