// The content in lent buffers, its read and its anchors.
ghost use Rattle.std.specs.Prelude.{◌≡◌, ◌≤◌, ◌<◌, ◌*◌, take};
ghost use Rattle.wire.specs.Sizes.{most_read, most_anchors};
ghost use Rattle.anchors.specs.Anchors.{per_anchor};
ghost use Rattle.anchors.specs.AnchorEntries.{AnchorsGiven, anchor_in};
ghost use Rattle.anchors_rules.specs.OneAnchor.{anchor_of};
ghost use Rattle.anchors_content.specs.Given.{given_of, Lent};

use anchors::PER_ANCHOR;
use anchors_rules::rules::Five;
use std::marker::Model;

// Content as a caller gives it: r, N, and buffers of full size, of which only the used places are looked at.
#[derive(Drop)]
pub struct Content<'a> {
    pub r: u32,
    pub n: u32,
    pub letters: &'a [u8],
    pub anchors: &'a [u32],
}

impl<'a> Model for Content<'a> {
    ghost Value = { AnchorsGiven };

    ghost view = { λ c. given_of c.r c.n c.letters.now c.anchors.now };

    ghost invariant = { λ c. Lent (given_of c.r c.n c.letters.now c.anchors.now) };
}

impl<'a> Content<'a> {
    // The letters of the read.
    pub fn read(&self) -> &'a [u8]
        requires { self.now.r ≤ most_read }
        ensures { result.now ≡ take self.now.r self.now.buffers.letters }
    {
        &self.letters[..self.r as usize]
    }

    // Anchor i, counted from 0.
    pub fn anchor(&self, i: usize) -> Five
        requires { i < most_anchors }
        ensures { anchor_of result ≡ anchor_in self.now.buffers.anchors i }
    {
        let at = PER_ANCHOR * i;
        Five {
            v: self.anchors[at],
            x: self.anchors[at + 1],
            c: self.anchors[at + 2],
            len: self.anchors[at + 3],
            weight: self.anchors[at + 4],
        }
    }

    // The anchors' numbers.
    pub fn anchor_numbers(&self) -> &'a [u32]
        requires { self.now.n ≤ most_anchors }
        ensures { result.now ≡ take (per_anchor * self.now.n) self.now.buffers.anchors }
    {
        &self.anchors[..PER_ANCHOR * self.n as usize]
    }
}
