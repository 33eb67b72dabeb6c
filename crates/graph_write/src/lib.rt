// The writer of a graph file: it takes content, checks it as the reader would (crate graph_faults), and writes its bytes (crate graph_file_bytes).
#![tactic(auto)]

ghost use Rattle.std.specs.Prelude.{◌≡◌, length};
ghost use Rattle.wire.specs.Refusals.{code, file_number};
ghost use Rattle.graph_content.specs.Used.{given_of};
ghost use Rattle.graph_write.specs.Answer.{refused_with, Written};

use graph_content::given::Content;
use graph_faults::content_fault;
use graph_file_bytes::{graph_size, put_graph};
use graph_rules::rooms::roomy;
use wire::refusals::{File, Refusal};
use wire::sizes::MOST_FILE_BYTES;

// The refusal's number, file and place, 0 in all three for an acceptance, and how many bytes were written. (C has a struct for each writer.)
#[repr(C)]
#[derive(Clone, Copy)]
pub struct WrittenAnswer {
    pub number: u32,
    pub file: u32,
    pub place: u32,
    pub bytes: u32,
}

// The answer to a refusal that is of no file.
fn refusal(refusal: Refusal) -> WrittenAnswer
    ensures { result ≡ refused_with (code refusal) 0 0 }
{
    WrittenAnswer {
        number: u32::from(refusal),
        file: 0,
        place: 0,
        bytes: 0,
    }
}

// The answer to a refusal at a place of a file.
fn fault(file: File, refusal: Refusal, place: u32) -> WrittenAnswer
    ensures { result ≡ refused_with (code refusal) (file_number file) place }
{
    WrittenAnswer {
        number: u32::from(refusal),
        file: u32::from(file),
        place,
        bytes: 0,
    }
}

// Writes the graph file of content: n, m and K, and the buffers, of which only the used places are looked at.
pub fn write_graph(
    n: u32,
    m: u32,
    k: u32,
    letters: &[u8],
    lengths: &[u32],
    edges: &[u32],
    paths: &[u32],
    counts: &[u32],
    out: &mut [u8],
) -> WrittenAnswer
    ensures { Written (given_of n m k
        letters.now lengths.now edges.now paths.now counts.now)
        (length out.old) out.old out.new result }
{
    if !roomy(
        letters.len(),
        lengths.len(),
        edges.len(),
        paths.len(),
        counts.len(),
    ) {
        return refusal(Refusal::SmallBuffer);
    }
    let content = Content {
        n,
        m,
        k,
        letters,
        lengths,
        edges,
        paths,
        counts,
    };
    if let Err(refusal) = content_fault(&content) {
        return fault(File::Graph, refusal, 0);
    }
    let bytes = graph_size(&content);
    if MOST_FILE_BYTES < bytes {
        return fault(File::Graph, Refusal::OutOfRange, MOST_FILE_BYTES as u32);
    }
    if out.len() < bytes {
        return refusal(Refusal::ShortOutput);
    }
    let written = put_graph(&content, out);
    WrittenAnswer {
        number: 0,
        file: 0,
        place: 0,
        bytes: written as u32,
    }
}
