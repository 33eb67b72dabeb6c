// A count with its range: read at a cursor, and refused at its first byte where it is out of range.
ghost use Rattle.std.specs.Prelude.{◌≡◌};
ghost use Rattle.wire.specs.Found.{reading};
ghost use Rattle.graph_parts.specs.Answers.{count_at};

use graph_rules::rules;
use wire::numbers::{Cursor, read_number};
use wire::refusals::Fault;

#[tactic(auto, unfolding(crate::specs::Answers::count_at))]
pub fn read_count(file: &[u8], cursor: Cursor, low: u32, high: u32) -> Result<(u32, Cursor), Fault>
    ensures { reading result ≡ count_at low high file.now cursor.at }
{
    let (x, next) = read_number(file, cursor)?;
    rules::range_fault(low, high, x).map_err(|refusal| refusal.at(cursor.at))?;
    Ok((x, next))
}
