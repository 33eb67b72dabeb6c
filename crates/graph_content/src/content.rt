// The first fault of a label's letters, of the edges and of a path's vertices, in the reader's order.
ghost use Rattle.std.specs.Prelude.{◌≡◌, false, ◌+◌, ◌-◌, ◌*◌, ◌≤◌, ◌<◌, length};
ghost use Rattle.wire.specs.Found.{told};
ghost use Rattle.wire.specs.Sizes.{most_edges};
ghost use Rattle.graph.specs.Rules.{no_edge, edge_below};
ghost use Rattle.graph.specs.Entries.{edge_in, edges_in};
ghost use Rattle.graph_rules.specs.Edges.{edge_of};
ghost use Rattle.graph_content.specs.Faults.{letters_fault, edges_fault, vertices_fault, Rising};
ghost use Rattle.graph_content.specs.Search.{Passed, edge_is};

use crate::given::Content;
use graph_rules::rules::{Edge, NO_EDGE, edge_below, edge_fault, letter_fault, rise_fault};
use wire::refusals::Refusal;

// A label's letters.
pub fn letters_fault(letters: &[u8]) -> Result<(), Refusal>
    ensures { told result ≡ letters_fault (length letters.now) letters.now 0 }
{
    for letter in letters {
        letter_fault(*letter)?;
    }
    Ok(())
}

// The edges, each against the one before it.
pub fn edges_fault(content: &Content<'_>) -> Result<(), Refusal>
    requires { content.now.m ≤ most_edges }
    ensures { told result ≡ edges_fault content.now.n content.now.m 0 no_edge content.now.buffers.edges }
{
    let mut last = NO_EDGE;
    for i in 0..content.m as usize {
        let edge = content.edge(i);
        edge_fault(content.n, last, edge)?;
        last = edge;
    }
    Ok(())
}

// The place of the first edge that is not below a step, looked for from a place on.
fn skip_edges(content: &Content<'_>, start: usize, step: Edge) -> usize
    requires { (start ≤ content.now.m) × (content.now.m ≤ most_edges) }
    ensures { Passed content.now.m content.now.buffers.edges start step.from step.to result
        × (result < content.now.m → edge_below (edge_in content.now.buffers.edges result) (edge_of step) ≡ false) }
{
    for i in start..content.m as usize {
        let edge = content.edge(i);
        // The first numbers alone tell it of most edges: half the time of a search (measured).
        if edge.from < step.from {
            continue;
        }
        if !edge_below(edge, step) {
            return i;
        }
    }
    content.m as usize
}

// Whether the edge at a place is a step.
fn edge_is(content: &Content<'_>, i: usize, step: Edge) -> bool
    requires { content.now.m ≤ most_edges }
    ensures { result ≡ edge_is content.now.m content.now.buffers.edges i step.from step.to }
{
    i < content.m as usize && content.edge(i) == step
}

// A path's vertices. Paths and edges rise, so that one pass over the edges finds all the path's steps.
pub fn vertices_fault(content: &Content<'_>, path: &[u32]) -> Result<(), Refusal>
    requires rising { (content.now.m ≤ most_edges) × Rising content.now.m content.now.buffers.edges }
    ensures { told result ≡ vertices_fault content.now.n (edges_in content.now.m 0 content.now.buffers.edges) (length path.now) 0 0 path.now }
{
    let mut last: u32 = 0;
    let mut place: usize = 0;
    for vertex in path {
        rise_fault(content.n, last, *vertex)?;
        if last != 0 {
            let step = Edge {
                from: last,
                to: *vertex,
            };
            place = skip_edges(content, place, step);
            if !edge_is(content, place, step) {
                return Err(Refusal::NotEdge);
            }
        }
        last = *vertex;
    }
    Ok(())
}
