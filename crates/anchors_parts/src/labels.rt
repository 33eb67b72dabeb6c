// Where the labels lie in an accepted graph file.
ghost use Rattle.std.specs.Prelude.{◌≡◌, ◌-◌, ◌≤◌, length, get_or};
ghost use Rattle.wire.specs.Lent.{front};
ghost use Rattle.graph.specs.Content.{lengths_of, vertex_count};
ghost use Rattle.anchors.specs.AnchorRules.{label_of};
ghost use Rattle.anchors_parts.specs.LabelTables.{LabelsAt, LabelTables, content_of, starts_in};

use std::marker::Model;
use wire::numbers::{Cursor, read_number};

// The labels of an accepted graph file: for each of its n vertices where its label's letters start and how many they are, vertex v at place v - 1.
// Two tables and not one of pairs: the lengths are those of the content, `lengths_of`. The tables are lent, so that handing labels on copies none.
#[derive(Drop)]
pub struct Labels<'a> {
    graph: &'a [u8],
    n: u32,
    starts: &'a [u32],
    lengths: &'a [u32],
}

impl<'a> Model for Labels<'a> {
    ghost use Rattle.std.specs.Prelude.{ℕ, List, ◌<◌, get_or};
    ghost use Rattle.anchors_parts.specs.LabelTables.{LabelTables};

    ghost Value = { List ℕ };

    ghost view = { λ l. l.graph.now };

    ghost invariant = { λ l. ((i : ℕ) → get_or l.graph.now i 0 < 256) × LabelTables l.graph.now l.n l.starts.now l.lengths.now };
}

impl<'a> Labels<'a> {
    // The labels of an accepted graph file of n vertices, the first of which starts at a place. `starts` and `lengths` are lent with a place for each
    // vertex, and filled.
    pub fn of(
        graph: &'a [u8],
        at: usize,
        n: u32,
        starts: &'a mut [u32],
        lengths: &'a mut [u32],
    ) -> Labels<'a>
        requires labels_at { LabelsAt graph.now at n }
        requires room { (n ≤ length starts.old) × (n ≤ length lengths.old) }
        ensures { result ≡ graph.now }
    {
        label_places(graph, at, n, starts, lengths);
        Labels::over(graph, n, starts, lengths)
    }

    // The same, by tables that are filled.
    pub fn over(graph: &'a [u8], n: u32, starts: &'a [u32], lengths: &'a [u32]) -> Labels<'a>
        requires { LabelTables graph.now n starts.now lengths.now }
        ensures { result ≡ graph.now }
    {
        Labels {
            graph,
            n,
            starts,
            lengths,
        }
    }

    // How many vertices there are.
    pub fn count(&self) -> u32
        ensures { result ≡ vertex_count (content_of self.now) }
    {
        self.n
    }

    // Where the letters of vertex v's label start in the graph file.
    pub fn start(&self, v: u32) -> u32
        requires le_v { (1 ≤ v) × (v ≤ vertex_count (content_of self.now)) }
        ensures { result ≡ get_or (starts_in self.now) (v - 1) 0 }
    {
        let starts = self.starts;
        starts[v as usize - 1]
    }

    // The letters of vertex v's label.
    pub fn letters(&self, v: u32) -> &'a [u8]
        requires le_v { (1 ≤ v) × (v ≤ vertex_count (content_of self.now)) }
        ensures { result.now ≡ label_of (content_of self.now) v }
    {
        let place = v as usize - 1;
        let (starts, lengths) = (self.starts, self.lengths);
        let start = starts[place] as usize;
        let end = start + lengths[place] as usize;
        let graph = self.graph;
        &graph[start..end]
    }
}

// Writes for each of the n vertices where its label's letters start in the graph file, and how many they are, vertex v at place v - 1.
pub fn label_places(graph: &[u8], at: usize, n: u32, starts: &mut [u32], lengths: &mut [u32])
    requires labels_at { LabelsAt graph.now at n }
    requires n_in_bounds { (n ≤ length starts.old) × (n ≤ length lengths.old) }
    ensures { (starts.new ≡ front (starts_in graph.now) starts.old)
        × (lengths.new ≡ front (lengths_of (content_of graph.now)) lengths.old) }
{
    let mut next = at;
    for i in 0..n as usize {
        let Ok((len, letters)) = read_number(graph, Cursor { at: next }) else {
            return;
        };
        starts[i] = letters.at as u32;
        lengths[i] = len;
        next = letters.at + len as usize;
    }
}
