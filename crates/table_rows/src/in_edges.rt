// The edges of content that lies in buffers, listed by the vertex that they go into.
ghost use Rattle.std.specs.Prelude.{◌≡◌, length};
ghost use Rattle.rounds.specs.Rounds.{Within};
ghost use Rattle.table_rows.specs.Lists.{IsNext};
ghost use Rattle.table_rows.specs.HeldEdges.{source, target, Held, Linked, Edges};

use std::marker::Model;

// `heads` has a place for each vertex and `nexts` one for each edge: the first edge into the vertex, and the next into the same one.
#[derive(Drop)]
pub struct InEdges<'a> {
    edges: &'a [u32],
    heads: &'a [u32],
    nexts: &'a [u32],
    ghost held: { Held (length heads.now) (length nexts.now) edges.now },
}

impl<'a> Model for InEdges<'a> {
    ghost Value = { Edges };

    ghost view = { λ s. record { n = length s.heads.now; m = length s.nexts.now; list = s.edges.now; held = s.held } };

    ghost invariant = { λ s. Linked s.edges.now s.heads.now s.nexts.now };
}

impl<'a> InEdges<'a> {
    // The edges of a buffer, with the lists made of them.
    pub fn new(edges: &'a [u32], heads: &'a [u32], nexts: &'a [u32]) -> InEdges<'a>
        requires { Linked edges.now heads.now nexts.now }
        ensures { (result.n ≡ length heads.now) × (result.m ≡ length nexts.now) × (result.list ≡ edges.now) }
    {
        InEdges {
            edges,
            heads,
            nexts,
        }
    }

    // How many vertices there are.
    pub fn vertices(&self) -> usize
        ensures { result ≡ self.now.n }
    {
        self.heads.len()
    }

    // The first edge into vertex v; 0 where there is none. (No Option: 0 is what ends a list in the buffers.)
    pub fn first(&self, v: usize) -> usize
        requires { Within self.now.n v }
        ensures { IsNext (target self.now.list) v 0 self.now.m result }
    {
        let heads = self.heads;
        heads[v - 1] as usize
    }

    // The next edge into the vertex that edge e goes into; 0 where there is none.
    pub fn next(&self, e: usize) -> usize
        requires { Within self.now.m e }
        ensures { IsNext (target self.now.list) (target self.now.list e) e self.now.m result }
    {
        let nexts = self.nexts;
        nexts[e - 1] as usize
    }

    // The vertex that edge e comes from.
    pub fn source(&self, e: usize) -> usize
        requires { Within self.now.m e }
        ensures is { result ≡ source self.now.list e }
        ensures within { Within self.now.n result }
    {
        let edges = self.edges;
        edges[2 * (e - 1)] as usize
    }
}
