// The tables of a graph: reach, distance and closed walks.
#![tactic(auto)]

ghost use Rattle.std.specs.Prelude.{◌≡◌, ◌≤◌, length};
ghost use Rattle.wire.specs.Sizes.{full_table, full_closed};
ghost use Rattle.graph.specs.Content.{Graph, path_count};
ghost use Rattle.cover.specs.TableEntries.{room_for_tables};
ghost use Rattle.tables_make.specs.Made.{Means};
ghost use Rattle.tables.specs.Answer.{refusal_of, Tabled, Answered};

use graph_read::read_graph;
use tables_make::content::GraphContent;
use tables_make::make::make_tables;
use wire::refusals::Refusal;
use wire::sizes::{
    FULL_CLOSED, FULL_COUNTS, FULL_EDGES, FULL_LENGTHS, FULL_LETTERS, FULL_PATHS, FULL_TABLE, ROW,
};
use wire_lent::{zero_rest, zeros};

// Number, file and place; then of an accepted file n, K and the rounds of the two tables.
#[repr(C)]
#[derive(Clone, Copy)]
pub struct TablesAnswer {
    pub number: u32,
    pub file: u32,
    pub place: u32,
    pub vertices: u32,
    pub paths: u32,
    pub reachrounds: u32,
    pub distancerounds: u32,
}

// A refusal: its other numbers are 0.
fn refusal(number: u32, file: u32, place: u32) -> TablesAnswer
    ensures { result ≡ refusal_of number file place }
{
    TablesAnswer {
        number: number,
        file: file,
        place: place,
        vertices: 0,
        paths: 0,
        reachrounds: 0,
        distancerounds: 0,
    }
}

// Whether each buffer has full size, by its length.
fn roomy(reach: usize, distance: usize, closed: usize) -> bool
    ensures { result ≡ room_for_tables reach distance closed }
{
    FULL_TABLE <= reach && FULL_TABLE <= distance && FULL_CLOSED <= closed
}

// Makes the tables of content with k paths that lies in buffers, and 0 in the unused places up to the full size.
fn lay_tables(
    content: &GraphContent<'_>,
    k: u32,
    reach: &mut [u32],
    distance: &mut [u32],
    closed: &mut [u32],
) -> TablesAnswer
    requires full_table_in_bounds { (full_table ≤ length reach.old) × (full_table ≤ length distance.old) × (full_closed ≤ length closed.old) }
    ensures { (g : Graph) → Means g content.now → k ≡ path_count g
        → Tabled g (record { reach = reach.old; distance = distance.old; closed = closed.old })
        (record { reach = reach.new; distance = distance.new; closed = closed.new }) result }
{
    let rows = content.n;
    let cells = ROW * rows;
    let made = make_tables(
        content,
        &mut reach[..cells],
        &mut distance[..cells],
        &mut closed[..rows],
    );
    zero_rest(reach, cells, FULL_TABLE);
    zero_rest(distance, cells, FULL_TABLE);
    zero_rest(closed, rows, FULL_CLOSED);
    TablesAnswer {
        number: 0,
        file: 0,
        place: 0,
        vertices: rows as u32,
        paths: k,
        reachrounds: made.reach,
        distancerounds: made.distance,
    }
}

// Makes the tables of a graph file, where each buffer has full size and the file is accepted; a refusal writes nothing.
pub fn tables(
    file: &[u8],
    reach: &mut [u32],
    distance: &mut [u32],
    closed: &mut [u32],
) -> TablesAnswer
    ensures { Answered file.now
        (record { reach = reach.old; distance = distance.old; closed = closed.old })
        (record { reach = reach.new; distance = distance.new; closed = closed.new })
        result }
{
    if !roomy(reach.len(), distance.len(), closed.len()) {
        return refusal(u32::from(Refusal::SmallBuffer), 0, 0);
    }
    let mut letters: [u8; FULL_LETTERS] = zeros();
    let mut lengths: [u32; FULL_LENGTHS] = zeros();
    let mut edges: [u32; FULL_EDGES] = zeros();
    let mut paths: [u32; FULL_PATHS] = zeros();
    let mut counts: [u32; FULL_COUNTS] = zeros();
    let read = read_graph(
        file,
        &mut letters,
        &mut lengths,
        &mut edges,
        &mut paths,
        &mut counts,
    );
    if read.number != 0 {
        return refusal(read.number, read.file, read.place);
    }
    let content = GraphContent {
        n: read.vertices as usize,
        m: read.edges as usize,
        lengths: &lengths,
        edges: &edges,
        paths: &paths,
        counts: &counts,
    };
    lay_tables(&content, read.paths, reach, distance, closed)
}
