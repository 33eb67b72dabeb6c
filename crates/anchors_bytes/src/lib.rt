// The bytes of an anchor file's content without fault: how many they are, and written.
#![tactic(auto)]

ghost use Rattle.std.specs.Prelude.{◌≡◌, ◌≤◌, length};
ghost use Rattle.wire.specs.Lent.{front};
ghost use Rattle.wire.specs.Sizes.{most_read, most_anchors, full_anchors};
ghost use Rattle.anchors.specs.AnchorBytes.{encode_anchors};
ghost use Rattle.anchors.specs.AnchorEntries.{set_in};
ghost use Rattle.anchors_bytes.specs.InPlaces.{size_in};

use anchors::PER_ANCHOR;
use anchors_content::given::Content;
use graph_bytes::puts::put_numbers;
use graph_bytes::room::numbers_size;
use wire::numbers::{group_count, put_number};
use wire::sizes::ANCHOR_KIND;
use wire_letters::put_letters;

// How many bytes the encoding takes, by the group counts of its numbers.
pub fn anchors_size(r: u32, n: u32, anchors: &[u32]) -> usize
    requires { (n ≤ most_anchors) × (full_anchors ≤ length anchors.now) }
    ensures { result ≡ size_in r n anchors.now }
{
    let end = PER_ANCHOR * n as usize;
    let read = group_count(ANCHOR_KIND) + group_count(r) + r as usize;
    read + group_count(n) + numbers_size(&anchors[..end])
}

// Writes content for which there is room, and says how many bytes that took.
pub fn put_anchors(content: &Content<'_>, out: &mut [u8]) -> usize
    requires few { (content.now.r ≤ most_read) × (content.now.n ≤ most_anchors) }
    requires room { length (encode_anchors (set_in content.now)) ≤ length out.old }
    ensures { (result ≡ length (encode_anchors (set_in content.now)))
        × (out.new ≡ front (encode_anchors (set_in content.now)) out.old) }
{
    let mut at = put_number(out, ANCHOR_KIND);
    at += put_number(&mut out[at..], content.r);
    at += put_letters(&mut out[at..], content.read());
    at += put_number(&mut out[at..], content.n);
    at += put_numbers(&mut out[at..], content.anchor_numbers());
    at
}
