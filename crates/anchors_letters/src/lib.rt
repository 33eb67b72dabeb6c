// The letters of one anchor: those of the label against those of the read.
#![tactic(auto)]

ghost use Rattle.std.specs.Prelude.{◌≡◌, ◌+◌, ◌-◌, ◌≤◌, length};
ghost use Rattle.anchors.specs.AnchorRules.{agree_from, letters_agree};
ghost use Rattle.anchors_rules.specs.OneAnchor.{anchor_of};

use anchors_rules::rules::Five;
use wire_letters::letters_agree;

// Whether the letters of two parts of one length agree.
fn parts_agree(label: &[u8], read: &[u8]) -> bool
    requires { length label.now ≡ length read.now }
    ensures { result ≡ agree_from (length label.now) label.now 0 read.now 0 }
{
    label
        .iter()
        .zip(read.iter())
        .all(|(a, b)| letters_agree(*a, *b))
}

// Whether the letters of an anchor inside a label and a read agree.
pub fn letters_match(label: &[u8], read: &[u8], a: Five) -> bool
    requires le_x { (1 ≤ a.x) × (a.x - 1 + a.len ≤ length label.now) }
    requires le_c { (1 ≤ a.c) × (a.c - 1 + a.len ≤ length read.now) }
    ensures { result ≡ letters_agree label.now read.now (anchor_of a) }
{
    let x = a.x as usize - 1;
    let c = a.c as usize - 1;
    let len = a.len as usize;
    parts_agree(&label[x..x + len], &read[c..c + len])
}
