// The content in lent buffers, its edges and its paths.
ghost use Rattle.std.specs.Prelude.{◌≡◌, ◌≤◌, ◌<◌, ◌*◌, length, slice_index};
ghost use Rattle.wire.specs.Sizes.{most_edges, most_paths, path_room};
ghost use Rattle.graph.specs.Entries.{Given, edge_in, numbers_in};
ghost use Rattle.graph_rules.specs.Edges.{edge_of};
ghost use Rattle.graph_content.specs.Used.{given_of, Full, Fits};

use graph_rules::rules::Edge;
use std::marker::Model;
use wire::sizes::PATH_ROOM;

// Content as a caller gives it: n, m and K, and buffers of full size, of which only the used places are looked at.
#[derive(Drop)]
pub struct Content<'a> {
    pub n: u32,
    pub m: u32,
    pub k: u32,
    pub letters: &'a [u8],
    pub lengths: &'a [u32],
    pub edges: &'a [u32],
    pub paths: &'a [u32],
    pub counts: &'a [u32],
}

impl<'a> Model for Content<'a> {
    ghost Value = { Given };

    ghost view = { λ c. given_of c.n c.m c.k c.letters.now c.lengths.now c.edges.now c.paths.now c.counts.now };

    ghost invariant = { λ c. Full (length c.letters.now) (length c.lengths.now) (length c.edges.now) (length c.paths.now) (length c.counts.now)
        × Fits (given_of c.n c.m c.k c.letters.now c.lengths.now c.edges.now c.paths.now c.counts.now) };
}

impl<'a> Content<'a> {
    // Edge i, counted from 0.
    pub fn edge(&self, i: usize) -> Edge
        requires { i < most_edges }
        ensures { edge_of result ≡ edge_in self.now.buffers.edges i }
    {
        Edge {
            from: self.edges[2 * i],
            to: self.edges[2 * i + 1],
        }
    }

    // The edges' numbers.
    pub fn edge_numbers(&self) -> &'a [u32]
        requires { self.now.m ≤ most_edges }
        ensures { result.now ≡ numbers_in (2 * self.now.m) 0 self.now.buffers.edges }
    {
        &self.edges[..2 * self.m as usize]
    }

    // The vertices of path i, counted from 0.
    pub fn path(&self, i: usize) -> &'a [u32]
        requires path_there { i < most_paths }
        requires within_room { slice_index self.now.buffers.counts i ≤ path_room }
        ensures { result.now ≡ numbers_in (slice_index self.now.buffers.counts i) (path_room * i) self.now.buffers.paths }
    {
        let start = PATH_ROOM * i;
        &self.paths[start..start + self.counts[i] as usize]
    }
}
