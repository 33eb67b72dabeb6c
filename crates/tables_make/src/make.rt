// Making the tables of a graph whose content lies in buffers.
ghost use Rattle.std.specs.Prelude.{◌≡◌, ℕ, ◌*◌, length, get_or};
ghost use Rattle.wire.specs.Sizes.{table_row};
ghost use Rattle.graph.specs.Content.{Graph};
ghost use Rattle.table_rounds.specs.Held.{Holds};
ghost use Rattle.cover.specs.TableEntries.{IsTables};
ghost use Rattle.tables_make.specs.Made.{Content, Means, made};

use crate::content::GraphContent;
use crate::targets::list_by_target;
use closed_rounds::closed::closed_walks;
use distance_rounds::{Distance, Walks};
use table_rounds::by_rule::settle;
use table_rounds::reach::Reach;
use table_rows::in_edges::InEdges;
use table_starts::distance::{finish_distance, start_distance};
use table_starts::reach::start_reach;
use wire::sizes::ROW;
use wire_lent::zeros;

// The rounds that made a reach table and a distance table.
#[derive(Clone, Copy)]
pub struct TableRounds {
    pub reach: u32,
    pub distance: u32,
}

// Makes the tables, where the edges are listed by target. `scratch` is a table to work on.
fn fill_tables(
    edges: &InEdges<'_>,
    lengths: &[u32],
    paths: &[u32],
    counts: &[u32],
    scratch: &mut [u32],
    reach: &mut [u32],
    distance: &mut [u32],
    closed: &mut [u32],
) -> TableRounds
    requires content { Content edges.now.n edges.now.m lengths.now edges.now.list paths.now counts.now }
    requires scratch_len { length scratch.old ≡ table_row * edges.now.n }
    requires reach_len { (length reach.old ≡ table_row * edges.now.n) × (length distance.old ≡ table_row * edges.now.n) × (length closed.old ≡ edges.now.n) }
    ensures { (g : Graph) → Holds g edges.now.n edges.now.m lengths.now edges.now.list paths.now counts.now → IsTables g (made reach.new distance.new closed.new result) }
{
    let n = edges.vertices();
    start_reach(reach, paths, counts, n);
    let a = settle(&Reach, edges, reach);
    start_distance(distance, reach, paths, n);
    let over = Distance {
        lengths: lengths,
        reach: reach,
    };
    let b = settle(&over, edges, distance);
    finish_distance(distance);
    let walks = Walks { lengths: lengths };
    closed_walks(closed, scratch, &walks, edges);
    TableRounds {
        reach: a,
        distance: b,
    }
}

// Lists the edges by target, and makes the tables. `heads` has a place for each vertex, `nexts` one for each edge; `heads` is lent
// with 0 everywhere.
fn list_and_fill(
    content: &GraphContent<'_>,
    heads: &mut [u32],
    nexts: &mut [u32],
    scratch: &mut [u32],
    reach: &mut [u32],
    distance: &mut [u32],
    closed: &mut [u32],
) -> TableRounds
    requires heads_len { (length heads.old ≡ content.now.n) × (length nexts.old ≡ content.now.m) }
    requires scratch_len { length scratch.old ≡ table_row * content.now.n }
    requires reach_len { (length reach.old ≡ table_row * content.now.n) × (length distance.old ≡ table_row * content.now.n) × (length closed.old ≡ content.now.n) }
    requires by_index { (q : ℕ) → get_or heads.old q 0 ≡ 0 }
    ensures { (g : Graph) → Means g content.now → IsTables g (made reach.new distance.new closed.new result) }
{
    let list = content.edges;
    list_by_target(list, heads, nexts);
    let edges = InEdges::new(list, heads, nexts);
    fill_tables(
        &edges,
        content.lengths,
        content.paths,
        content.counts,
        scratch,
        reach,
        distance,
        closed,
    )
}

// Makes the tables of content that lies in buffers. Of the tables exactly the used places are lent.
pub fn make_tables(
    content: &GraphContent<'_>,
    reach: &mut [u32],
    distance: &mut [u32],
    closed: &mut [u32],
) -> TableRounds
    requires reach_len { (length reach.old ≡ table_row * content.now.n) × (length distance.old ≡ table_row * content.now.n) × (length closed.old ≡ content.now.n) }
    ensures { (g : Graph) → Means g content.now → IsTables g (made reach.new distance.new closed.new result) }
{
    let n = content.n;
    let mut heads: [u32; 1024] = zeros();
    let mut nexts: [u32; 4096] = zeros();
    let mut scratch: [u32; 16384] = zeros();
    list_and_fill(
        content,
        &mut heads[..n],
        &mut nexts[..content.m],
        &mut scratch[..ROW * n],
        reach,
        distance,
        closed,
    )
}
