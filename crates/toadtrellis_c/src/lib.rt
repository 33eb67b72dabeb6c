// The entries of `toadtrellis` for C and Rust (include/toadtrellis.h): the archive that is linked. A slice is a pointer and a length; an answer is a
// struct by value. Each export has the promise of the library's entry of its name, and calls that entry alone.
#![tactic(auto)]

ghost use Rattle.graph_content.specs.Used.{given_of};
ghost use Rattle.std.specs.Prelude.{length};
ghost use Rattle.chain.specs.ChainEntries.{IsSweep, IsPlain};
ghost use Rattle.toadtrellis.specs.Promises.{GraphRead, GraphWritten, AnchorsRead, AnchorsWritten, TablesMade, ChainFound, LettersFound};

use anchors_read::AnchorsAnswer;
use anchors_write::WrittenAnchors;
use graph_read::GraphAnswer;
use graph_write::WrittenAnswer;
use placing::ChainAnswer;
use tables::TablesAnswer;
use toadtrellis::ToadPart;

// Reads a graph file into the buffers.
#[unsafe(no_mangle)]
pub extern "C" fn toad_read_graph(
    file: &[u8],
    letters: &mut [u8],
    lengths: &mut [u32],
    edges: &mut [u32],
    paths: &mut [u32],
    counts: &mut [u32],
) -> GraphAnswer
    ensures { GraphRead file.now
        (record { letters = letters.old; lengths = lengths.old; edges = edges.old; paths = paths.old; counts = counts.old })
        (record { letters = letters.new; lengths = lengths.new; edges = edges.new; paths = paths.new; counts = counts.new })
        result }
{
    toadtrellis::toad_read_graph(file, letters, lengths, edges, paths, counts)
}

// Writes the graph file of content: n, m and K, and the buffers.
#[unsafe(no_mangle)]
pub extern "C" fn toad_write_graph(
    n: u32,
    m: u32,
    k: u32,
    letters: &[u8],
    lengths: &[u32],
    edges: &[u32],
    paths: &[u32],
    counts: &[u32],
    out: &mut [u8],
) -> WrittenAnswer
    ensures { GraphWritten (given_of n m k
        letters.now lengths.now edges.now paths.now counts.now)
        (length out.old) out.old out.new result }
{
    toadtrellis::toad_write_graph(n, m, k, letters, lengths, edges, paths, counts, out)
}

// Reads an anchor file over a graph file into the buffers.
#[unsafe(no_mangle)]
pub extern "C" fn toad_read_anchors(
    graph: &[u8],
    file: &[u8],
    letters: &mut [u8],
    anchors: &mut [u32],
) -> AnchorsAnswer
    ensures { AnchorsRead graph.now file.now
        (record { letters = letters.old; anchors = anchors.old })
        (record { letters = letters.new; anchors = anchors.new })
        result }
{
    toadtrellis::toad_read_anchors(graph, file, letters, anchors)
}

// Writes the anchor file of content over a graph file: r and N, and the buffers.
#[unsafe(no_mangle)]
pub extern "C" fn toad_write_anchors(
    r: u32,
    n: u32,
    letters: &[u8],
    anchors: &[u32],
    graph: &[u8],
    out: &mut [u8],
) -> WrittenAnchors
    ensures { AnchorsWritten
        (record { r = r; n = n; buffers = record { letters = letters.now; anchors = anchors.now } })
        graph.now out.old out.new result }
{
    toadtrellis::toad_write_anchors(r, n, letters, anchors, graph, out)
}

// Makes the tables of a graph file: reach, distance and closed walks.
#[unsafe(no_mangle)]
pub extern "C" fn toad_tables(
    file: &[u8],
    reach: &mut [u32],
    distance: &mut [u32],
    closed: &mut [u32],
) -> TablesAnswer
    ensures { TablesMade file.now
        (record { reach = reach.old; distance = distance.old; closed = closed.old })
        (record { reach = reach.new; distance = distance.new; closed = closed.new })
        result }
{
    toadtrellis::toad_tables(file, reach, distance, closed)
}

// The sweep: the best score of all chains ending at each anchor, and the chain that is returned.
#[unsafe(no_mangle)]
pub extern "C" fn toad_sweep(
    graph: &[u8],
    file: &[u8],
    scores: &mut [u32],
    chain: &mut [u32],
) -> ChainAnswer
    ensures { ChainFound IsSweep graph.now file.now
        (record { scores = scores.old; chain = chain.old })
        (record { scores = scores.new; chain = chain.new })
        result }
{
    toadtrellis::toad_sweep(graph, file, scores, chain)
}

// The plain pass, which audits the sweep: the same scores and chain, with no rounds.
#[unsafe(no_mangle)]
pub extern "C" fn toad_plain(
    graph: &[u8],
    file: &[u8],
    scores: &mut [u32],
    chain: &mut [u32],
) -> ChainAnswer
    ensures { ChainFound IsPlain graph.now file.now
        (record { scores = scores.old; chain = chain.old })
        (record { scores = scores.new; chain = chain.new })
        result }
{
    toadtrellis::toad_plain(graph, file, scores, chain)
}

// Where the letters of one anchor stand in the file named, 1 graph or 2 anchors.
#[unsafe(no_mangle)]
pub extern "C" fn toad_letters(graph: &[u8], file: &[u8], number: u32, which: u32) -> ToadPart
    ensures { LettersFound graph.now file.now number which result }
{
    toadtrellis::toad_letters(graph, file, number, which)
}
