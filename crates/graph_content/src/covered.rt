// Every vertex is on a path: one flag for each vertex, set along the paths.
ghost use Rattle.std.specs.Prelude.{◌≡◌, ◌≤◌, length};
ghost use Rattle.wire.specs.Found.{told};
ghost use Rattle.wire.specs.Sizes.{most_vertices, most_paths};
ghost use Rattle.graph.specs.Rules.{is_on, is_on_any, cover_fault};
ghost use Rattle.graph.specs.Entries.{paths_in};
ghost use Rattle.graph_content.specs.Used.{Roomed};
ghost use Rattle.graph_content.specs.Flags.{Flagged, Vertices, Inside};

use crate::given::Content;
use graph_paths::marks::{all_marked, mark, no_marks};
use wire::refusals::Refusal;

// Marks a path's vertices.
fn mark_path(flags: &mut [bool], vertices: &[u32])
    requires { Vertices (length flags.old) vertices.now }
    ensures { Flagged flags.old flags.new (is_on vertices.now) }
{
    for vertex in vertices {
        mark(flags, *vertex);
    }
}

// Marks the vertices of the paths.
fn mark_paths(flags: &mut [bool], content: &Content<'_>)
    requires few_paths { content.now.k ≤ most_paths }
    requires roomed { Roomed content.now.k content.now.buffers.counts
        × Inside (length flags.old) content.now.k content.now.buffers.paths content.now.buffers.counts }
    ensures { Flagged flags.old flags.new (is_on_any (paths_in content.now.k 0 content.now.buffers.paths content.now.buffers.counts)) }
{
    for i in 0..content.k as usize {
        mark_path(flags, content.path(i));
    }
}

// The vertices 1 to n are all on the paths.
pub fn cover_fault(content: &Content<'_>) -> Result<(), Refusal>
    requires few { (content.now.n ≤ most_vertices) × (content.now.k ≤ most_paths) }
    requires roomed { Roomed content.now.k content.now.buffers.counts
        × Inside most_vertices content.now.k content.now.buffers.paths content.now.buffers.counts }
    ensures { told result ≡ cover_fault content.now.n (paths_in content.now.k 0 content.now.buffers.paths content.now.buffers.counts) }
{
    let mut flags = no_marks();
    mark_paths(&mut flags, content);
    if all_marked(&flags, content.n) {
        Ok(())
    } else {
        Err(Refusal::OnNoPath)
    }
}
