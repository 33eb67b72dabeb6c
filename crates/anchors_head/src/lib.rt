// The head of an anchor file: its kind, and the read's length.
#![tactic(auto)]

ghost use Rattle.std.specs.Prelude.{◌≡◌};
ghost use Rattle.wire.specs.Found.{reading};
ghost use Rattle.anchors_head.specs.Head.{head_of};

use graph_parts::counts::read_count;
use wire::numbers::{Cursor, read_number};
use wire::refusals::{Fault, Refusal};
use wire::sizes::{ANCHOR_KIND, MOST_READ};

// The kind, then r: r with the cursor after it, or the first fault.
#[tactic(auto, unfolding(crate::specs::Head::head_of))]
pub fn read_head(file: &[u8]) -> Result<(u32, Cursor), Fault>
    ensures { reading result ≡ head_of file.now }
{
    let (kind, next) = read_number(file, Cursor { at: 0 })?;
    if kind != ANCHOR_KIND {
        return Err(Refusal::WrongKind.at(0));
    }
    read_count(file, next, 1, MOST_READ)
}
