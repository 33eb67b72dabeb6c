// The first fault of the labels and of the paths, in the reader's order.
ghost use Rattle.std.specs.Prelude.{◌≡◌, ◌≤◌};
ghost use Rattle.wire.specs.Found.{told};
ghost use Rattle.wire.specs.Sizes.{most_vertices, most_edges, most_paths};
ghost use Rattle.graph.specs.Entries.{edges_in};
ghost use Rattle.graph_content.specs.Faults.{labels_fault, paths_fault, Rising};

use graph_content::content::{letters_fault, vertices_fault};
use graph_content::given::Content;
use graph_rules::rules::{length_fault, range_fault};
use wire::refusals::Refusal;

// The labels: each length, and then its letters.
pub fn labels_fault(content: &Content<'_>) -> Result<(), Refusal>
    requires { content.now.n ≤ most_vertices }
    ensures { told result ≡ labels_fault content.now.n 0 0 content.now.buffers.letters content.now.buffers.lengths }
{
    let mut sum: usize = 0;
    for length in &content.lengths[..content.n as usize] {
        length_fault(sum as u32, *length)?;
        let next = sum + *length as usize;
        letters_fault(&content.letters[sum..next])?;
        sum = next;
    }
    Ok(())
}

// The paths: each vertex count, and then its vertices.
pub fn paths_fault(content: &Content<'_>) -> Result<(), Refusal>
    requires rising { (content.now.m ≤ most_edges) × Rising content.now.m content.now.buffers.edges }
    requires few { (content.now.n ≤ most_vertices) × (content.now.k ≤ most_paths) }
    ensures { told result ≡ paths_fault content.now.n (edges_in content.now.m 0 content.now.buffers.edges) content.now.k 0
        content.now.buffers.paths content.now.buffers.counts }
{
    for i in 0..content.k as usize {
        range_fault(1, content.n, content.counts[i])?;
        vertices_fault(content, content.path(i))?;
    }
    Ok(())
}
