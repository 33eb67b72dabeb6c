// The labels written, each its length and its letters.
ghost use Rattle.std.specs.Prelude.{◌≡◌, ◌≤◌, length};
ghost use Rattle.wire.specs.Sizes.{most_vertices};
ghost use Rattle.wire.specs.Lent.{front};
ghost use Rattle.graph.specs.Encode.{encode_labels};
ghost use Rattle.graph.specs.Entries.{labels_in};
ghost use Rattle.graph_content.specs.Faults.{labels_fault};

use graph_content::given::Content;
use wire::numbers::put_number;
use wire_letters::put_letters;

// Writes the labels, each its length and its letters.
pub fn put_labels(out: &mut [u8], content: &Content<'_>) -> usize
    requires few { content.now.n ≤ most_vertices }
    requires faultless { labels_fault content.now.n 0 0 content.now.buffers.letters content.now.buffers.lengths ≡ 0 }
    requires room { length (encode_labels (labels_in content.now.n 0 0 content.now.buffers.letters content.now.buffers.lengths)) ≤ length out.old }
    ensures { (result ≡ length (encode_labels (labels_in content.now.n 0 0 content.now.buffers.letters content.now.buffers.lengths)))
        × (out.new ≡ front (encode_labels (labels_in content.now.n 0 0 content.now.buffers.letters content.now.buffers.lengths)) out.old) }
{
    let mut at: usize = 0;
    let mut sum: usize = 0;
    for length in &content.lengths[..content.n as usize] {
        at += put_number(&mut out[at..], *length);
        let next = sum + *length as usize;
        at += put_letters(&mut out[at..], &content.letters[sum..next]);
        sum = next;
    }
    at
}
