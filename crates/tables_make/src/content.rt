// The content of an accepted graph file, as it lies in buffers.
ghost use Rattle.std.specs.Prelude.{◌≡◌};
ghost use Rattle.tables_make.specs.Made.{Content, InBuffers};

use std::marker::Model;

// n vertices and m edges, with the buffers that hold their labels' lengths, the edges, and the paths with their vertex counts.
#[derive(Drop)]
pub struct GraphContent<'a> {
    pub n: usize,
    pub m: usize,
    pub lengths: &'a [u32],
    pub edges: &'a [u32],
    pub paths: &'a [u32],
    pub counts: &'a [u32],
}

impl<'a> Model for GraphContent<'a> {
    ghost Value = { InBuffers };

    ghost view = { λ s. record { n = s.n; m = s.m; lengths = s.lengths.now; edges = s.edges.now; paths = s.paths.now; counts = s.counts.now } };

    ghost invariant = { λ s. Content s.n s.m s.lengths.now s.edges.now s.paths.now s.counts.now };
}
