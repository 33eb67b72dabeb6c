// The delivered library: its entries under the names for C and Rust (include/toadtrellis.h), which `toadtrellis_c` exports. Each entry calls the
// layer's own and has the same promise and the same answer, with no demand on its caller.
#![tactic(auto)]

ghost use Rattle.graph_content.specs.Used.{given_of};
ghost use Rattle.std.specs.Prelude.{length};
ghost use Rattle.chain.specs.ChainEntries.{IsSweep, IsPlain};
ghost use Rattle.toadtrellis.specs.Promises.{GraphRead, GraphWritten, AnchorsRead, AnchorsWritten, TablesMade, ChainFound, LettersFound};

use anchors_read::{AnchorsAnswer, read_anchors};
use anchors_view::view::view;
use anchors_write::{WrittenAnchors, write_anchors};
use graph_read::{GraphAnswer, read_graph};
use graph_write::{WrittenAnswer, write_graph};
use placing::ChainAnswer;
use plain_placing::plain;
use sweep_placing::sweep;
use tables::{TablesAnswer, tables};

// Where a part of the file named starts, and how long it is.
#[repr(C)]
#[derive(Clone, Copy)]
pub struct ToadPart {
    pub start: u32,
    pub length: u32,
}

// Reads a graph file into the buffers.
pub fn toad_read_graph(
    file: &[u8],
    letters: &mut [u8],
    lengths: &mut [u32],
    edges: &mut [u32],
    paths: &mut [u32],
    counts: &mut [u32],
) -> GraphAnswer
    ensures { GraphRead file.now
        (record { letters = letters.old; lengths = lengths.old; edges = edges.old; paths = paths.old; counts = counts.old })
        (record { letters = letters.new; lengths = lengths.new; edges = edges.new; paths = paths.new; counts = counts.new })
        result }
{
    read_graph(file, letters, lengths, edges, paths, counts)
}

// Writes the graph file of content: n, m and K, and the buffers.
pub fn toad_write_graph(
    n: u32,
    m: u32,
    k: u32,
    letters: &[u8],
    lengths: &[u32],
    edges: &[u32],
    paths: &[u32],
    counts: &[u32],
    out: &mut [u8],
) -> WrittenAnswer
    ensures { GraphWritten (given_of n m k
        letters.now lengths.now edges.now paths.now counts.now)
        (length out.old) out.old out.new result }
{
    write_graph(n, m, k, letters, lengths, edges, paths, counts, out)
}

// Reads an anchor file over a graph file into the buffers.
pub fn toad_read_anchors(
    graph: &[u8],
    file: &[u8],
    letters: &mut [u8],
    anchors: &mut [u32],
) -> AnchorsAnswer
    ensures { AnchorsRead graph.now file.now
        (record { letters = letters.old; anchors = anchors.old })
        (record { letters = letters.new; anchors = anchors.new })
        result }
{
    read_anchors(graph, file, letters, anchors)
}

// Writes the anchor file of content over a graph file: r and N, and the buffers.
pub fn toad_write_anchors(
    r: u32,
    n: u32,
    letters: &[u8],
    anchors: &[u32],
    graph: &[u8],
    out: &mut [u8],
) -> WrittenAnchors
    ensures { AnchorsWritten
        (record { r = r; n = n; buffers = record { letters = letters.now; anchors = anchors.now } })
        graph.now out.old out.new result }
{
    write_anchors(r, n, letters, anchors, graph, out)
}

// Makes the tables of a graph file: reach, distance and closed walks.
pub fn toad_tables(
    file: &[u8],
    reach: &mut [u32],
    distance: &mut [u32],
    closed: &mut [u32],
) -> TablesAnswer
    ensures { TablesMade file.now
        (record { reach = reach.old; distance = distance.old; closed = closed.old })
        (record { reach = reach.new; distance = distance.new; closed = closed.new })
        result }
{
    tables(file, reach, distance, closed)
}

// The sweep: the best score of all chains ending at each anchor, and the chain that is returned.
pub fn toad_sweep(graph: &[u8], file: &[u8], scores: &mut [u32], chain: &mut [u32]) -> ChainAnswer
    ensures { ChainFound IsSweep graph.now file.now
        (record { scores = scores.old; chain = chain.old })
        (record { scores = scores.new; chain = chain.new })
        result }
{
    sweep(graph, file, scores, chain)
}

// The plain pass, which audits the sweep: the same scores and chain, with no rounds.
pub fn toad_plain(graph: &[u8], file: &[u8], scores: &mut [u32], chain: &mut [u32]) -> ChainAnswer
    ensures { ChainFound IsPlain graph.now file.now
        (record { scores = scores.old; chain = chain.old })
        (record { scores = scores.new; chain = chain.new })
        result }
{
    plain(graph, file, scores, chain)
}

// Where the letters of one anchor stand in the file named, 1 graph or 2 anchors.
pub fn toad_letters(graph: &[u8], file: &[u8], number: u32, which: u32) -> ToadPart
    ensures { LettersFound graph.now file.now number which result }
{
    let w = view(graph, file, number, which);
    ToadPart {
        start: w.start,
        length: w.len,
    }
}
