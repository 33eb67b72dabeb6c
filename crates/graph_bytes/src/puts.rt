// Numbers and paths written, each number into the lent-on rest of the output.
ghost use Rattle.std.specs.Prelude.{◌≡◌, ◌≤◌, length};
ghost use Rattle.wire.specs.Sizes.{most_paths};
ghost use Rattle.wire.specs.Lent.{front};
ghost use Rattle.graph.specs.Encode.{encode_numbers, encode_paths};
ghost use Rattle.graph.specs.Entries.{paths_in};
ghost use Rattle.graph_content.specs.Used.{Roomed};

use graph_content::given::Content;
use wire::numbers::put_number;

// Writes numbers, one after the other, and says how many bytes that took. The caller has seen that there is room.
pub fn put_numbers(out: &mut [u8], numbers: &[u32]) -> usize
    requires { length (encode_numbers numbers.now) ≤ length out.old }
    ensures { (result ≡ length (encode_numbers numbers.now))
        × (out.new ≡ front (encode_numbers numbers.now) out.old) }
{
    let mut at: usize = 0;
    for number in numbers {
        at += put_number(&mut out[at..], *number);
    }
    at
}

// Writes the paths, each its vertex count and its vertices.
pub fn put_paths(out: &mut [u8], content: &Content<'_>) -> usize
    requires roomed { (content.now.k ≤ most_paths) × Roomed content.now.k content.now.buffers.counts }
    requires room { length (encode_paths (paths_in content.now.k 0 content.now.buffers.paths content.now.buffers.counts)) ≤ length out.old }
    ensures { (result ≡ length (encode_paths (paths_in content.now.k 0 content.now.buffers.paths content.now.buffers.counts)))
        × (out.new ≡ front (encode_paths (paths_in content.now.k 0 content.now.buffers.paths content.now.buffers.counts)) out.old) }
{
    let mut at: usize = 0;
    for i in 0..content.k as usize {
        let path = content.path(i);
        at += put_number(&mut out[at..], path.len() as u32);
        at += put_numbers(&mut out[at..], path);
    }
    at
}
