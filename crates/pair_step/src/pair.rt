// The two anchors of a step: where the first ends, and where the second starts.
ghost use Rattle.std.specs.Prelude.{◌<◌, ◌≡◌, get_or, length};

use std::marker::Model;

// Where an anchor ends: at letter y of vertex u, and at d on the read.
#[derive(Clone, Copy)]
pub struct End {
    pub u: u32,
    pub y: u32,
    pub d: u32,
}

// Where an anchor starts: at letter x of vertex v, and at c on the read; with its weight.
#[derive(Clone, Copy)]
pub struct Start {
    pub v: u32,
    pub x: u32,
    pub c: u32,
    pub weight: u32,
}

// Where anchors end: of each its vertex, and its last letters in label and read.
#[derive(Drop)]
pub struct Ends<'a> {
    pub us: &'a [u32],
    pub ys: &'a [u32],
    pub ds: &'a [u32],
}

impl<'a> Model for Ends<'a> {
    ghost use Rattle.pair_step.specs.Pairs.{Ends};

    ghost Value = { Ends };

    ghost view = { λ e. record { us = e.us.now; ys = e.ys.now; ds = e.ds.now } };
}

impl<'a> Ends<'a> {
    // Where the anchor at place i ends.
    pub fn at(&self, i: usize) -> End
        requires { (i < length self.now.us) × (i < length self.now.ys) × (i < length self.now.ds) }
        ensures { result ≡ record { u = get_or self.now.us i 0; y = get_or self.now.ys i 0; d = get_or self.now.ds i 0 } }
    {
        let us = self.us;
        let ys = self.ys;
        let ds = self.ds;
        End {
            u: us[i],
            y: ys[i],
            d: ds[i],
        }
    }
}
