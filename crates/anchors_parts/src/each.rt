// The anchors of a file, one by one.
ghost use Rattle.std.specs.Prelude.{◌≡◌};
ghost use Rattle.wire.specs.Found.{reading};
ghost use Rattle.graph_parts.specs.Answers.{answered};
ghost use Rattle.anchors.specs.AnchorRules.{no_anchor};
ghost use Rattle.anchors.specs.AnchorReading.{anchors_from};
ghost use Rattle.anchors_parts.specs.LabelTables.{content_of};

use crate::labels::Labels;
use crate::one::{own_fault, read_five};
use anchors_rules::rules::{NO_ANCHOR, fault_place, key_below};
use wire::numbers::Cursor;
use wire::refusals::{Fault, Refusal};

// The `count` anchors from a cursor on, over the labels of an accepted graph and the letters of the read: their number with the next cursor, or the
// first fault.
pub fn check_each(
    labels: &Labels<'_>,
    read: &[u8],
    file: &[u8],
    count: u32,
    cursor: Cursor,
) -> Result<(u32, Cursor), Fault>
    ensures { reading result ≡ answered count (anchors_from (content_of labels.now) read.now count no_anchor file.now cursor.at) }
{
    let mut last = NO_ANCHOR;
    let mut place = cursor;
    for _ in 0..count {
        let (a, weight_at, next) = read_five(file, place)?;
        own_fault(labels, read, a).map_err(|own| own.at(fault_place(own, place.at, weight_at.at)))?;
        if !key_below(last, a) {
            return Err(Refusal::NotRising.at(place.at));
        }
        last = a;
        place = next;
    }
    Ok((count, place))
}
