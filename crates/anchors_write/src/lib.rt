// The writer of an anchor file: it takes content and the graph file's bytes, checks both as the reader would, and writes the content's bytes.
#![tactic(auto)]

ghost use Rattle.std.specs.Prelude.{◌≡◌};
ghost use Rattle.wire.specs.Refusals.{code, file_number};
ghost use Rattle.anchors_write.specs.Answer.{refused_with, Written};

use anchors_bytes::{anchors_size, put_anchors};
use anchors_content::content::content_fault;
use anchors_content::given::Content;
use anchors_parts::labels::Labels;
use anchors_rules::rooms::roomy;
use graph_check::check_graph;
use wire::refusals::{File, Refusal};
use wire::sizes::{FULL_LENGTHS, MOST_FILE_BYTES};
use wire_lent::zeros;

// The refusal's number, file and place, 0 in all three for an acceptance, and how many bytes were written. (C has a struct for each writer.)
#[repr(C)]
#[derive(Clone, Copy)]
pub struct WrittenAnchors {
    pub number: u32,
    pub file: u32,
    pub place: u32,
    pub bytes: u32,
}

// The answer to a refusal that is of no file.
fn refusal(refusal: Refusal) -> WrittenAnchors
    ensures { result ≡ refused_with (code refusal) 0 0 }
{
    WrittenAnchors {
        number: u32::from(refusal),
        file: 0,
        place: 0,
        bytes: 0,
    }
}

// The answer to a refusal at a place of a file.
fn fault(file: File, refusal: Refusal, place: u32) -> WrittenAnchors
    ensures { result ≡ refused_with (code refusal) (file_number file) place }
{
    WrittenAnchors {
        number: u32::from(refusal),
        file: u32::from(file),
        place,
        bytes: 0,
    }
}

// Writes the anchor file of content over a graph file: r and N, and the buffers, of which only the used places are looked at.
pub fn write_anchors(
    r: u32,
    n: u32,
    letters: &[u8],
    anchors: &[u32],
    graph: &[u8],
    out: &mut [u8],
) -> WrittenAnchors
    ensures { Written
        (record { r = r; n = n; buffers = record { letters = letters.now; anchors = anchors.now } })
        graph.now out.old out.new result }
{
    if !roomy(letters.len(), anchors.len()) {
        return refusal(Refusal::SmallBuffer);
    }
    let sections = match check_graph(graph) {
        Err(found) => return fault(File::Graph, found.refusal, found.place as u32),
        Ok(sections) => sections,
    };
    let mut starts: [u32; FULL_LENGTHS] = zeros();
    let mut lengths: [u32; FULL_LENGTHS] = zeros();
    let labels = Labels::of(
        graph,
        sections.labels,
        sections.n,
        &mut starts,
        &mut lengths,
    );
    let content = Content {
        r,
        n,
        letters,
        anchors,
    };
    if let Err(refusal) = content_fault(&labels, &content) {
        return fault(File::Anchors, refusal, 0);
    }
    let bytes = anchors_size(r, n, anchors);
    if MOST_FILE_BYTES < bytes {
        return fault(File::Anchors, Refusal::OutOfRange, MOST_FILE_BYTES as u32);
    }
    if out.len() < bytes {
        return refusal(Refusal::ShortOutput);
    }
    let written = put_anchors(&content, out);
    WrittenAnchors {
        number: 0,
        file: 0,
        place: 0,
        bytes: written as u32,
    }
}
