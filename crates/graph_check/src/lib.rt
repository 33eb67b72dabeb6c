// The check of the graph file: the definitions are in the crate graph, and the check here decides without writing.
#![tactic(auto)]

ghost use Rattle.std.specs.Prelude.{◌≡◌};
ghost use Rattle.wire.specs.Found.{found};
ghost use Rattle.graph.specs.Reading.{graph_of};
ghost use Rattle.graph_check.specs.Checked.{checked_of, HasHead};

use graph_parts::counts::read_count;
use graph_parts::edges::check_edges;
use graph_parts::labels::check_labels;
use graph_paths::marks::{all_marked, no_marks};
use graph_paths::paths::check_paths;
use wire::numbers::{Cursor, read_number};
use wire::refusals::{Fault, Refusal};
use wire::sizes::{GRAPH_KIND, MOST_EDGES, MOST_FILE_BYTES, MOST_PATHS, MOST_VERTICES};

// The counts of an accepted file, and the places where its labels, edges and paths start.
#[derive(Clone, Copy)]
pub struct Sections {
    pub n: u32,
    pub letters: u32,
    pub labels: usize,
    pub m: u32,
    pub edges: usize,
    pub k: u32,
    pub paths: usize,
}

// The counts and places of a file up to its edges, and the place after them.
#[derive(Clone, Copy)]
struct Head {
    n: u32,
    letters: u32,
    labels: usize,
    m: u32,
    edges: usize,
    next: Cursor,
}

// The check of a file whose edges are checked: K and the paths, then 9, then 10.
fn check_rest(file: &[u8], head: Head) -> Result<Sections, Fault>
    requires { HasHead file.now head }
    ensures { found result ≡ checked_of (graph_of file.now) }
{
    let (k, paths) = read_count(file, head.next, 1, MOST_PATHS)?;
    let mut flags = no_marks();
    let (_, end) = check_paths(file, paths, k, head.n, head.edges, head.m, &mut flags)?;
    if !all_marked(&flags, head.n) {
        return Err(Refusal::OnNoPath.at(end.at));
    }
    if end.at != file.len() {
        return Err(Refusal::LeftOver.at(end.at));
    }
    Ok(Sections {
        n: head.n,
        letters: head.letters,
        labels: head.labels,
        m: head.m,
        edges: head.edges,
        k,
        paths: paths.at,
    })
}

// The check of a graph file: its sections, or the first fault, byte by byte from the front.
pub fn check_graph(file: &[u8]) -> Result<Sections, Fault>
    ensures { found result ≡ checked_of (graph_of file.now) }
{
    if MOST_FILE_BYTES < file.len() {
        return Err(Refusal::OutOfRange.at(MOST_FILE_BYTES));
    }
    let (kind, count) = read_number(file, Cursor { at: 0 })?;
    if kind != GRAPH_KIND {
        return Err(Refusal::WrongKind.at(0));
    }
    let (n, labels) = read_count(file, count, 1, MOST_VERTICES)?;
    let (letters, edge_count) = check_labels(file, labels, n)?;
    let (m, edges) = read_count(file, edge_count, 0, MOST_EDGES)?;
    let (_, next) = check_edges(file, edges, n, m)?;
    check_rest(
        file,
        Head {
            n,
            letters,
            labels: labels.at,
            m,
            edges: edges.at,
            next,
        },
    )
}
