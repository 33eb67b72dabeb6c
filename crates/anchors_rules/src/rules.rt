// One anchor's numbers, and the rules on them: its place in the order, inside label and read, the weight, and the place of its fault.
ghost use Rattle.std.specs.Prelude.{◌≡◌, length};
ghost use Rattle.wire.specs.Found.{told};
ghost use Rattle.wire.specs.Refusals.{code};
ghost use Rattle.wire.specs.Sizes.{most_weight};
ghost use Rattle.graph.specs.Rules.{range_fault};
ghost use Rattle.anchors.specs.Anchors.{y};
ghost use Rattle.anchors.specs.AnchorRules.{is_inside, key_below, fault_place};
ghost use Rattle.anchors_rules.specs.OneAnchor.{anchor_of};

use graph_rules::rules::range_fault;
use wire::refusals::Refusal;
use wire::sizes::MOST_WEIGHT;

// An anchor's numbers.
#[derive(Clone, Copy)]
pub struct Five {
    pub v: u32,
    pub x: u32,
    pub c: u32,
    pub len: u32,
    pub weight: u32,
}

// No anchor: it is below every anchor.
pub const NO_ANCHOR: Five = Five {
    v: 0,
    x: 0,
    c: 0,
    len: 0,
    weight: 0,
};

// What anchors are ordered by.
#[derive(Clone, Copy, PartialEq, Eq, PartialOrd, Ord)]
struct Key {
    v: u32,
    x: u32,
    y: u64,
    c: u32,
}

// An anchor's key.
fn key_of(a: Five) -> Key
    ensures { result ≡ record { v = a.v; x = a.x; y = y (anchor_of a); c = a.c } }
{
    Key {
        v: a.v,
        x: a.x,
        y: (a.x as u64 + a.len as u64).saturating_sub(1),
        c: a.c,
    }
}

// Whether the anchor a comes before b in the order (v, x, y, c).
#[tactic(auto, unfolding(anchors::specs::AnchorRules::key_below))]
pub fn key_below(a: Five, b: Five) -> bool
    ensures { result ≡ key_below (anchor_of a) (anchor_of b) }
{
    key_of(a) < key_of(b)
}

// Whether an anchor is inside a label of so many letters and a read of r.
pub fn is_inside(letters: usize, r: usize, a: Five) -> bool
    ensures { result ≡ is_inside letters r (anchor_of a) }
{
    1 <= a.x
        && 1 <= a.c
        && 1 <= a.len
        && a.x as usize + a.len as usize - 1 <= letters
        && a.c as usize + a.len as usize - 1 <= r
}

// A weight is 1 to 65,535.
pub fn weight_fault(weight: u32) -> Result<(), Refusal>
    ensures { told result ≡ range_fault 1 most_weight weight }
{
    range_fault(1, MOST_WEIGHT, weight)
}

// The place of an anchor's fault: its first byte; for 4, the weight's first byte.
pub fn fault_place(refusal: Refusal, first: usize, weight_at: usize) -> usize
    ensures { result ≡ fault_place (code refusal) first weight_at }
{
    match refusal {
        Refusal::OutOfRange => weight_at,
        _ => first,
    }
}
