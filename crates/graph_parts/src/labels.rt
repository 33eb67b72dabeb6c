// The labels: each its length and its letters.
ghost use Rattle.std.specs.Prelude.{◌≡◌, ◌+◌};
ghost use Rattle.graph.specs.Reading.{letters_from, labels_from};
ghost use Rattle.wire.specs.Found.{reading};
ghost use Rattle.graph_parts.specs.Answers.{letters_answer, labels_answer};

use graph_rules::rules;
use wire::numbers::{Cursor, read_number};
use wire::refusals::{Fault, Refusal};

// A label's letters, one by one: their number with the next cursor, or the first fault.
pub fn check_letters(file: &[u8], cursor: Cursor, len: u32) -> Result<(u32, Cursor), Fault>
    ensures { reading result ≡ letters_answer len (cursor.at + len) (letters_from len file.now cursor.at) }
{
    let mut at = cursor.at;
    for _ in 0..len {
        if file.len() <= at {
            return Err(Refusal::BytesEnd.at(file.len()));
        }
        rules::letter_fault(file[at]).map_err(|refusal| refusal.at(at))?;
        at += 1;
    }
    Ok((len, Cursor { at }))
}

// The n labels: the number of all their letters with the next cursor, or the first fault.
pub fn check_labels(file: &[u8], cursor: Cursor, n: u32) -> Result<(u32, Cursor), Fault>
    ensures { reading result ≡ labels_answer 0 (labels_from n 0 file.now cursor.at) }
{
    let mut next = cursor;
    let mut sum: u32 = 0;
    for _ in 0..n {
        let (len, letters) = read_number(file, next)?;
        rules::length_fault(sum, len).map_err(|refusal| refusal.at(next.at))?;
        let (_, after) = check_letters(file, letters, len)?;
        sum += len;
        next = after;
    }
    Ok((sum, next))
}
