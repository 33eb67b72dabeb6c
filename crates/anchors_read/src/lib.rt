// The reader of an anchor file: it checks both files, and lays an accepted anchor file's content into lent buffers.
#![tactic(auto)]

ghost use Rattle.std.specs.Prelude.{◌≡◌};
ghost use Rattle.wire.specs.Found.{refused};
ghost use Rattle.wire.specs.Refusals.{code};
ghost use Rattle.anchors_read.specs.Answer.{answer_of, counts_answer, Answered};

use anchors_check::{AnchorSections, check_anchors};
use anchors_fill::{fill_anchors, fill_read};
use anchors_rules::rooms::roomy;
use wire::refusals::Refusal;

// Number, file and place; then the counts of an accepted anchor file: letters of the read, and anchors.
#[repr(C)]
#[derive(Clone, Copy)]
pub struct AnchorsAnswer {
    pub number: u32,
    pub file: u32,
    pub place: u32,
    pub letters: u32,
    pub anchors: u32,
}

// A refusal: its other numbers are 0.
fn refusal(number: Refusal, file: u32, place: u32) -> AnchorsAnswer
    ensures { result ≡ answer_of (refused (code number) file place) }
{
    AnchorsAnswer {
        number: u32::from(number),
        file,
        place,
        letters: 0,
        anchors: 0,
    }
}

// An acceptance: 0 0 0, and r and N.
fn acceptance(a: AnchorSections) -> AnchorsAnswer
    ensures { result ≡ counts_answer a }
{
    AnchorsAnswer {
        number: 0,
        file: 0,
        place: 0,
        letters: a.r,
        anchors: a.n,
    }
}

// Reads the anchor file over the graph file into the buffers, where each has full size and both files are accepted; a refusal writes nothing.
pub fn read_anchors(
    graph: &[u8],
    file: &[u8],
    letters: &mut [u8],
    anchors: &mut [u32],
) -> AnchorsAnswer
    ensures { Answered graph.now file.now
        (record { letters = letters.old; anchors = anchors.old })
        (record { letters = letters.new; anchors = anchors.new })
        result }
{
    if !roomy(letters.len(), anchors.len()) {
        return refusal(Refusal::SmallBuffer, 0, 0);
    }
    match check_anchors(graph, file) {
        Err(found) => refusal(
            found.fault.refusal,
            u32::from(found.file),
            found.fault.place as u32,
        ),
        Ok((_, a)) => {
            let read = &file[a.read..a.read + a.r as usize];
            fill_read(read, letters);
            fill_anchors(file, a.anchors, a.n as usize, anchors);
            acceptance(a)
        }
    }
}
