// The reader of a graph file: it checks the file, and lays an accepted file's content into lent buffers.
#![tactic(auto)]

ghost use Rattle.std.specs.Prelude.{◌≡◌};
ghost use Rattle.wire.specs.Found.{refused};
ghost use Rattle.wire.specs.Refusals.{code};
ghost use Rattle.graph_read.specs.Answer.{answer_of, counts_answer, Answered};

use graph_check::{Sections, check_graph};
use graph_fill::paths::fill_paths;
use graph_fill_front::edges::fill_edges;
use graph_fill_front::labels::fill_labels;
use graph_rules::rooms::roomy;
use wire::refusals::{File, Refusal};

// Number, file and place; then the counts of an accepted file: vertices, letters of all labels, edges, paths.
#[repr(C)]
#[derive(Clone, Copy)]
pub struct GraphAnswer {
    pub number: u32,
    pub file: u32,
    pub place: u32,
    pub vertices: u32,
    pub letters: u32,
    pub edges: u32,
    pub paths: u32,
}

// A refusal: its other numbers are 0.
fn refusal(number: Refusal, file: u32, place: u32) -> GraphAnswer
    ensures { result ≡ answer_of (refused (code number) file place) }
{
    GraphAnswer {
        number: u32::from(number),
        file,
        place,
        vertices: 0,
        letters: 0,
        edges: 0,
        paths: 0,
    }
}

// An acceptance: 0 0 0, and the counts of the content.
fn acceptance(s: Sections) -> GraphAnswer
    ensures { result ≡ counts_answer s }
{
    GraphAnswer {
        number: 0,
        file: 0,
        place: 0,
        vertices: s.n,
        letters: s.letters,
        edges: s.m,
        paths: s.k,
    }
}

// Reads the graph file into the buffers, where each has full size and the file is accepted; a refusal writes nothing.
pub fn read_graph(
    file: &[u8],
    letters: &mut [u8],
    lengths: &mut [u32],
    edges: &mut [u32],
    paths: &mut [u32],
    counts: &mut [u32],
) -> GraphAnswer
    ensures { Answered file.now
        (record { letters = letters.old; lengths = lengths.old; edges = edges.old; paths = paths.old; counts = counts.old })
        (record { letters = letters.new; lengths = lengths.new; edges = edges.new; paths = paths.new; counts = counts.new })
        result }
{
    if !roomy(
        letters.len(),
        lengths.len(),
        edges.len(),
        paths.len(),
        counts.len(),
    ) {
        return refusal(Refusal::SmallBuffer, 0, 0);
    }
    match check_graph(file) {
        Err(fault) => refusal(fault.refusal, u32::from(File::Graph), fault.place as u32),
        Ok(s) => {
            fill_labels(file, s.labels, s.n as usize, letters, lengths);
            fill_edges(file, s.edges, s.m as usize, edges);
            fill_paths(file, s.paths, s.k as usize, paths, counts);
            acceptance(s)
        }
    }
}
