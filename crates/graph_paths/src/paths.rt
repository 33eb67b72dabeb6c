// The paths: each its vertex count and its vertices.
ghost use Rattle.std.specs.Prelude.{◌≡◌, [], ◌≤◌};
ghost use Rattle.wire.specs.Found.{reading};
ghost use Rattle.graph.specs.Reading.{paths_from};
ghost use Rattle.graph_parts.specs.Answers.{answered};
ghost use Rattle.graph_paths.specs.PathAnswers.{HasEdges, edges_in, Marked};
ghost use Rattle.graph_paths.specs.Marks.{Marks};

use crate::marks::mark;
use crate::search::{Search, find_step};
use graph_parts::counts::read_count;
use graph_rules::rules::rise_fault;
use wire::numbers::{Cursor, read_number};
use wire::refusals::{Fault, Refusal};

// The k paths over the m edges at the place `edges`, which are checked already: their number with the next cursor, or the first fault.
// Their vertices are marked. Edges and a path's vertices both rise, so a path is one pass over the edges.
pub fn check_paths(
    file: &[u8],
    cursor: Cursor,
    k: u32,
    n: u32,
    edges: usize,
    m: u32,
    flags: &mut [bool],
) -> Result<(u32, Cursor), Fault>
    requires has_edges { HasEdges n m file.now edges }
    requires marks { Marks flags.old n [] }
    ensures value { reading result ≡ answered k (paths_from n (edges_in n m file.now edges) k file.now cursor.at) }
    ensures marked { Marked flags.new n (paths_from n (edges_in n m file.now edges) k file.now cursor.at) }
{
    let mut next = cursor;
    // Left by a label at the first fault, and numbers taken apart with let else: document 01 names both for this place.
    'paths: {
        for _ in 0..k {
            let head = read_count(file, next, 1, n);
            let Ok((count, first)) = head else {
                break 'paths head;
            };
            next = first;
            let mut last: u32 = 0;
            let mut step = Search {
                found: true,
                at: edges,
                left: m,
            };
            for _ in 0..count {
                let got = read_number(file, next);
                let Ok((v, after)) = got else {
                    break 'paths got;
                };
                if let Err(refusal) = rise_fault(n, last, v) {
                    break 'paths Err(refusal.at(next.at));
                }
                step = find_step(file, step, last, v);
                if !step.found {
                    break 'paths Err(Refusal::NotEdge.at(next.at));
                }
                mark(flags, v);
                last = v;
                next = after;
            }
        }
        Ok((k, next))
    }
}
