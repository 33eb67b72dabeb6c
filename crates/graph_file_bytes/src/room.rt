// How many bytes the labels and the paths take, by the group counts of their numbers.
ghost use Rattle.std.specs.Prelude.{◌≡◌, ◌^◌, ◌≤◌, ◌<◌, length};
ghost use Rattle.wire.specs.Sizes.{most_vertices, most_paths};
ghost use Rattle.graph.specs.Encode.{encode_paths};
ghost use Rattle.graph.specs.Entries.{paths_in};
ghost use Rattle.graph_content.specs.Used.{labels_size, Roomed};

use graph_bytes::room::numbers_size;
use graph_content::given::Content;
use wire::numbers::group_count;

// How many bytes the labels take, each its length and its letters.
pub fn labels_size(content: &Content<'_>) -> usize
    requires { content.now.n ≤ most_vertices }
    ensures { (result ≡ labels_size content.now.n 0 content.now.buffers.lengths) × (result < 2 ^ 43) }
{
    let mut total: usize = 0;
    for length in &content.lengths[..content.n as usize] {
        total += group_count(*length) + *length as usize;
    }
    total
}

// How many bytes the paths take, each its vertex count and its vertices.
pub fn paths_size(content: &Content<'_>) -> usize
    requires { (content.now.k ≤ most_paths) × Roomed content.now.k content.now.buffers.counts }
    ensures { (result ≡ length (encode_paths (paths_in content.now.k 0 content.now.buffers.paths content.now.buffers.counts)))
        × (result < 2 ^ 17) }
{
    let mut total: usize = 0;
    for i in 0..content.k as usize {
        let path = content.path(i);
        total += group_count(path.len() as u32) + numbers_size(path);
    }
    total
}
