// A path's step, searched for among the edges as the file lists them.
ghost use Rattle.std.specs.Prelude.{◌≡◌};
ghost use Rattle.graph_paths.specs.Steps.{search_at, step_at};

use graph_rules::rules::{Edge, edge_below};
use wire::numbers::{Cursor, read_number};

// Where a search along the edges ended: whether it found the edge, and, found or not, the place and the number of the edges still to come.
#[derive(Clone, Copy)]
pub struct Search {
    pub found: bool,
    pub at: usize,
    pub left: u32,
}

// Goes along the edges, `count` of them from a place on, to the first that is not below the one wanted. Edges rise, so if that is not the
// one wanted, none is; and a search for a greater edge may go on from there.
pub fn find_edge(file: &[u8], start: usize, count: u32, wanted: Edge) -> Search
    ensures { result ≡ search_at count file.now start wanted.from wanted.to }
{
    let mut at = start;
    for passed in 0..count {
        let left = count - passed;
        let Ok((from, second)) = read_number(file, Cursor { at }) else {
            return Search {
                found: false,
                at,
                left,
            };
        };
        let Ok((to, next)) = read_number(file, second) else {
            return Search {
                found: false,
                at,
                left,
            };
        };
        let edge = Edge { from, to };
        if !edge_below(edge, wanted) {
            return Search {
                found: edge == wanted,
                at,
                left,
            };
        }
        at = next.at;
    }
    Search {
        found: false,
        at,
        left: 0,
    }
}

// Whether a path may step from `last` to v, looked for from where the search before it ended; before a path's first vertex `last` is 0,
// and there is no step.
pub fn find_step(file: &[u8], from: Search, last: u32, v: u32) -> Search
    ensures { result ≡ step_at from.left file.now from.at last v }
{
    if last == 0 {
        return Search {
            found: true,
            at: from.at,
            left: from.left,
        };
    }
    find_edge(file, from.at, from.left, Edge { from: last, to: v })
}
