// One anchor: its five numbers and its own faults.
ghost use Rattle.std.specs.Prelude.{◌≡◌};
ghost use Rattle.wire.specs.Found.{told};
ghost use Rattle.anchors.specs.AnchorRules.{own_fault};
ghost use Rattle.anchors.specs.AnchorReading.{numbers_at};
ghost use Rattle.anchors_rules.specs.OneAnchor.{anchor_of};
ghost use Rattle.anchors_parts.specs.LabelTables.{content_of};
ghost use Rattle.anchors_parts.specs.ReadAnchor.{five_reading, numbers_after};

use crate::labels::Labels;
use anchors_letters::letters_match;
use anchors_rules::rules::{Five, is_inside, weight_fault};
use graph_rules::rules::is_vertex;
use wire::numbers::{Cursor, read_number};
use wire::refusals::{Fault, Refusal};

// Reads an anchor's numbers at a cursor: with where the weight starts and the cursor after it.
#[tactic(auto, unfolding(anchors::specs::AnchorReading::numbers_at))]
pub fn read_five(file: &[u8], cursor: Cursor) -> Result<(Five, Cursor, Cursor), Fault>
    ensures { five_reading result ≡ numbers_at file.now cursor.at }
{
    let (v, second) = read_number(file, cursor)?;
    let (x, third) = read_number(file, second)?;
    let (c, fourth) = read_number(file, third)?;
    let (len, weight_at) = read_number(file, fourth)?;
    let (weight, next) = read_number(file, weight_at)?;
    let five = Five {
        v,
        x,
        c,
        len,
        weight,
    };
    Ok((five, weight_at, next))
}

// Reads the anchor after `skipped` others, the first of which starts at a cursor.
pub fn five_after(
    file: &[u8],
    cursor: Cursor,
    skipped: u32,
) -> Result<(Five, Cursor, Cursor), Fault>
    ensures { five_reading result ≡ numbers_after skipped file.now cursor.at }
{
    let mut place = cursor;
    for _ in 0..skipped {
        let (_, _, next) = read_five(file, place)?;
        place = next;
    }
    read_five(file, place)
}

// An anchor's own fault, apart from its order: 6, 11, 4, 12.
#[tactic(auto, unfolding(anchors::specs::AnchorRules::own_fault))]
pub fn own_fault(labels: &Labels<'_>, read: &[u8], a: Five) -> Result<(), Refusal>
    ensures { told result ≡ own_fault (content_of labels.now) read.now (anchor_of a) }
{
    if !is_vertex(labels.count(), a.v) {
        return Err(Refusal::NoVertex);
    }
    let label = labels.letters(a.v);
    if !is_inside(label.len(), read.len(), a) {
        return Err(Refusal::Outside);
    }
    weight_fault(a.weight)?;
    if letters_match(label, read, a) {
        Ok(())
    } else {
        Err(Refusal::LettersDiffer)
    }
}
