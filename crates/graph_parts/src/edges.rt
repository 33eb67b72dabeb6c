// The edges: checked one after the other.
ghost use Rattle.std.specs.Prelude.{◌≡◌};
ghost use Rattle.graph.specs.Rules.{no_edge};
ghost use Rattle.graph.specs.Reading.{edges_from};
ghost use Rattle.wire.specs.Found.{reading};
ghost use Rattle.graph_parts.specs.Answers.{answered};

use graph_rules::rules::{self, Edge, NO_EDGE};
use wire::numbers::{Cursor, read_number};
use wire::refusals::Fault;

// The m edges of a graph of n vertices: their number with the next cursor, or the first fault.
pub fn check_edges(file: &[u8], cursor: Cursor, n: u32, m: u32) -> Result<(u32, Cursor), Fault>
    ensures { reading result ≡ answered m (edges_from n m no_edge file.now cursor.at) }
{
    let mut next = cursor;
    let mut last = NO_EDGE;
    for _ in 0..m {
        let (from, second) = read_number(file, next)?;
        let (to, after) = read_number(file, second)?;
        let edge = Edge { from, to };
        rules::edge_fault(n, last, edge).map_err(|refusal| refusal.at(next.at))?;
        last = edge;
        next = after;
    }
    Ok((m, next))
}
