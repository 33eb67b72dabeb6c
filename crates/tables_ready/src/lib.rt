// An accepted graph file is read and its tables are made, for whatever engine follows.
#![tactic(auto)]

ghost use Rattle.std.specs.Prelude.{◌≡◌, ◌≤◌, length};
ghost use Rattle.wire.specs.Found.{good};
ghost use Rattle.wire.specs.Sizes.{full_letters, full_lengths, full_paths, full_table, full_closed};
ghost use Rattle.graph.specs.Reading.{Parsed, graph_of};
ghost use Rattle.tables_ready.specs.Ready.{SomeGraph, Ready};

use graph_read::{GraphAnswer, read_graph};
use tables_make::content::GraphContent;
use tables_make::make::make_tables;
use wire::sizes::{FULL_COUNTS, FULL_EDGES, ROW};
use wire_lent::zeros;

// Reads an accepted graph file and makes its tables, at the front of their buffers. `letters` is room to work in.
pub fn make_ready(
    graph: &[u8],
    letters: &mut [u8],
    lengths: &mut [u32],
    paths: &mut [u32],
    reach: &mut [u32],
    distance: &mut [u32],
    closed: &mut [u32],
) -> GraphAnswer
    requires some_graph { SomeGraph graph.now }
    requires full_letters_in_bounds { (full_letters ≤ length letters.old) × (full_lengths ≤ length lengths.old) × (full_paths ≤ length paths.old) }
    requires full_table_in_bounds { (full_table ≤ length reach.old) × (full_table ≤ length distance.old) × (full_closed ≤ length closed.old) }
    ensures { (p : Parsed) → graph_of graph.now ≡ good p
        → Ready p.graph lengths.new paths.new reach.new distance.new closed.new result }
{
    let mut edges: [u32; FULL_EDGES] = zeros();
    let mut counts: [u32; FULL_COUNTS] = zeros();
    let g = read_graph(graph, letters, lengths, &mut edges, paths, &mut counts);
    let n = g.vertices as usize;
    let cells = ROW * n;
    let content = GraphContent {
        n: n,
        m: g.edges as usize,
        lengths: lengths,
        edges: &edges,
        paths: paths,
        counts: &counts,
    };
    make_tables(
        &content,
        &mut reach[..cells],
        &mut distance[..cells],
        &mut closed[..n],
    );
    g
}
