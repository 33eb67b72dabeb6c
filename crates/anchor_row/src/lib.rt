// What an anchor's line shows after its number, out of the anchors' numbers and scores.
#![tactic(auto)]

ghost use Rattle.std.specs.Prelude.{◌≡◌, ◌+◌, ◌-◌};
ghost use Rattle.anchor_row.specs.Row.{HeldAt, row_in};

use anchors::PER_ANCHOR;

// The last letter of a match of `len` letters from `first` on: y = x + length − 1 and d = c + length − 1.
fn last(first: u32, len: u32) -> u64
    ensures { result ≡ (first + len) - 1 }
{
    (first as u64 + len as u64).saturating_sub(1)
}

// Anchors, by their numbers, and the score of each.
#[derive(Clone, Copy)]
pub struct Scored<'a> {
    pub numbers: &'a [u32],
    pub scores: &'a [u32],
}

impl Scored<'_> {
    // What one anchor's line has after the number: v x y c d and the score ending there.
    pub fn row_of(&self, number: u32) -> [u64; 6]
        requires { HeldAt number self.now.numbers.now self.now.scores.now }
        ensures { result ≡ row_in self.now.numbers.now self.now.scores.now number }
    {
        let j = number as usize - 1;
        let at = PER_ANCHOR * j;
        let numbers = self.numbers;
        let x = numbers[at + 1];
        let c = numbers[at + 2];
        let len = numbers[at + 3];
        [
            numbers[at] as u64,
            x as u64,
            last(x, len),
            c as u64,
            last(c, len),
            self.scores[j] as u64,
        ]
    }
}
