// What the engines work on: the content and the tables of a graph, and the anchors over them.
ghost use Rattle.std.specs.Prelude.{◌<◌, ◌≡◌};
ghost use Rattle.anchors.specs.AnchorEntries.{anchor_in};

use anchors::PER_ANCHOR;
use pair_step::pair::{Ends, Start};
use std::marker::Model;

// What rows are made of: n vertices and k paths, the labels' lengths, the paths, each in its room, and the tables.
#[derive(Drop)]
pub struct Tables<'a> {
    pub n: usize,
    pub k: usize,
    pub lengths: &'a [u32],
    pub paths: &'a [u32],
    pub reach: &'a [u32],
    pub distance: &'a [u32],
    pub closed: &'a [u32],
}

impl<'a> Model for Tables<'a> {
    ghost use Rattle.steps.specs.Setting.{Setting, Prepared};
    ghost use Rattle.steps.specs.Rowing.{tables};

    ghost Value = { Setting };

    ghost view = { λ t. tables t.n t.k t.lengths.now t.paths.now t.reach.now t.distance.now t.closed.now };

    ghost invariant = { λ t. Prepared (tables t.n t.k t.lengths.now t.paths.now t.reach.now t.distance.now t.closed.now) };
}

// The tables, and `count` anchors over them: their numbers, five for each, and where they end.
#[derive(Drop)]
pub struct Setting<'a> {
    pub tables: Tables<'a>,
    pub count: usize,
    pub numbers: &'a [u32],
    pub ends: Ends<'a>,
}

impl<'a> Model for Setting<'a> {
    ghost use Rattle.steps.specs.Setting.{Setting, Prepared};
    ghost use Rattle.steps.specs.Rowing.{with_anchors};

    ghost Value = { Setting };

    ghost view = { λ s. with_anchors s.tables s.count s.numbers.now s.ends };

    ghost invariant = { λ s. Prepared (with_anchors s.tables s.count s.numbers.now s.ends) };
}

impl<'a> Setting<'a> {
    // Where the anchor at place j starts, with its weight.
    pub fn start(&self, j: usize) -> Start
        requires { j < self.now.count }
        ensures { result ≡ record { v = (anchor_in self.now.numbers j).v; x = (anchor_in self.now.numbers j).x; c = (anchor_in self.now.numbers j).c; weight = (anchor_in self.now.numbers j).weight } }
    {
        let numbers = self.numbers;
        let at = PER_ANCHOR * j;
        Start {
            v: numbers[at],
            x: numbers[at + 1],
            c: numbers[at + 2],
            weight: numbers[at + 4],
        }
    }
}
