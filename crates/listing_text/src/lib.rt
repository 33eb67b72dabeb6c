// The listing out of buffers, laid into a lent output: the first line, and the lines of the chain's anchors. The caller has seen that there is room.
#![tactic(auto)]

ghost use Rattle.std.specs.Prelude.{◌≡◌, ◌∷◌, ◌++◌, ◌≤◌, length};
ghost use Rattle.wire.specs.Lent.{front};
ghost use Rattle.wire.specs.Sizes.{full_chain};
ghost use Rattle.decimal_text.specs.Decimal.{decimal};
ghost use Rattle.decimal_text.specs.Words.{space};
ghost use Rattle.anchor_row.specs.Row.{HeldAt};
ghost use Rattle.listing_lines.specs.Lines.{found_line};
ghost use Rattle.listing_text.specs.Lines.{spaced, line_in, Numbered, lines_in, listing_room};

use anchor_row::Scored;
use decimal_text::put_decimal;
use listing_lines::put_found;

// Writes a space and a number after it.
fn put_spaced(out: &mut [u8], n: u64) -> usize
    requires { length (space ∷ decimal n) ≤ length out.old }
    ensures { (result ≡ length (space ∷ decimal n)) × (out.new ≡ front (space ∷ decimal n) out.old) }
{
    out[0] = b' ';
    put_decimal(&mut out[1..], n) + 1
}

// Writes numbers, each after a space.
fn put_row(out: &mut [u8], numbers: &[u64]) -> usize
    requires { length (spaced numbers.now) ≤ length out.old }
    ensures { (result ≡ length (spaced numbers.now)) × (out.new ≡ front (spaced numbers.now) out.old) }
{
    let mut at = 0;
    for n in numbers {
        at += put_spaced(&mut out[at..], *n);
    }
    at
}

// Writes one anchor's line: its number, and the row after it.
fn put_line(out: &mut [u8], anchors: &Scored<'_>, number: u32) -> usize
    requires held_at { HeldAt number anchors.now.numbers.now anchors.now.scores.now }
    requires number_in_bounds { length (line_in anchors.now.numbers.now anchors.now.scores.now number) ≤ length out.old }
    ensures { let line = line_in anchors.now.numbers.now anchors.now.scores.now number in
        (result ≡ length line) × (out.new ≡ front line out.old) }
{
    let row = anchors.row_of(number);
    let mut at = put_decimal(out, number as u64);
    at += put_row(&mut out[at..], &row);
    out[at] = b'\n';
    at + 1
}

// Writes the lines of the chain's anchors.
fn put_lines(out: &mut [u8], anchors: &Scored<'_>, chain: &[u32]) -> usize
    requires numbered { Numbered anchors.now.numbers.now anchors.now.scores.now chain.now }
    requires chain_in_bounds { length (lines_in anchors.now.numbers.now anchors.now.scores.now chain.now) ≤ length out.old }
    ensures { let lines = lines_in anchors.now.numbers.now anchors.now.scores.now chain.now in
        (result ≡ length lines) × (out.new ≡ front lines out.old) }
{
    let mut at = 0;
    for number in chain {
        at += put_line(&mut out[at..], anchors, *number);
    }
    at
}

// The first line, and the lines of the chain's anchors. The slices are parameters, since a proof is not told of a struct's slices that their
// numbers fit 32 bits.
pub fn put_listing(
    out: &mut [u8],
    count: u32,
    score: u32,
    rounds: u32,
    numbers: &[u32],
    scores: &[u32],
    chain: &[u32],
) -> usize
    requires { (listing_room ≤ length out.old) × (length chain.now ≤ full_chain) × Numbered numbers.now scores.now chain.now }
    ensures { let text = found_line count score rounds ++ lines_in numbers.now scores.now chain.now in
        (result ≡ length text) × (out.new ≡ front text out.old) }
{
    let mut at = put_found(out, count, score, rounds);
    at += put_lines(&mut out[at..], &Scored { numbers, scores }, chain);
    at
}
