// The rules of the graph file, each as the refusal that it gives, if any. The reader and the writer go by these alone.
ghost use Rattle.std.specs.Prelude.{◌≡◌};
ghost use Rattle.wire.specs.Found.{told};
ghost use Rattle.graph.specs.Rules.{range_fault, length_fault, letter_fault, is_vertex, edge_below, edge_fault};
ghost use Rattle.graph_rules.specs.Rise.{rise_fault};
ghost use Rattle.graph_rules.specs.Edges.{edge_of};

use wire::refusals::Refusal;
use wire::sizes::MOST_LETTERS;

// An edge, from a vertex to a vertex.
#[derive(Clone, Copy, PartialEq, Eq, PartialOrd, Ord)]
pub struct Edge {
    pub from: u32,
    pub to: u32,
}

// Below every edge.
pub const NO_EDGE: Edge = Edge { from: 0, to: 0 };

// A count or a length is low to high.
pub fn range_fault(low: u32, high: u32, x: u32) -> Result<(), Refusal>
    ensures { told result ≡ range_fault low high x }
{
    if x < low || high < x {
        Err(Refusal::OutOfRange)
    } else {
        Ok(())
    }
}

// A label's length, after labels of `sum` letters together.
pub fn length_fault(sum: u32, len: u32) -> Result<(), Refusal>
    ensures { told result ≡ length_fault sum len }
{
    if len < 1 || (MOST_LETTERS as u64) < sum as u64 + len as u64 {
        Err(Refusal::OutOfRange)
    } else {
        Ok(())
    }
}

// A label's byte is a letter.
pub fn letter_fault(byte: u8) -> Result<(), Refusal>
    ensures { told result ≡ letter_fault byte }
{
    if wire_letters::is_letter(byte) {
        Ok(())
    } else {
        Err(Refusal::NotLetter)
    }
}

// Whether v is a vertex of n.
pub fn is_vertex(n: u32, v: u32) -> bool
    ensures { result ≡ is_vertex n v }
{
    1 <= v && v <= n
}

// Whether the edge `last` is below an edge.
pub fn edge_below(last: Edge, edge: Edge) -> bool
    ensures { result ≡ edge_below (edge_of last) (edge_of edge) }
{
    last < edge
}

// An edge, after the edge `last` (`NO_EDGE` before the first): 6, 7.
#[tactic(auto, unfolding(graph::specs::Rules::edge_fault))]
pub fn edge_fault(n: u32, last: Edge, edge: Edge) -> Result<(), Refusal>
    ensures { told result ≡ edge_fault n (edge_of last) (edge_of edge) }
{
    if !is_vertex(n, edge.from) || !is_vertex(n, edge.to) {
        return Err(Refusal::NoVertex);
    }
    if edge_below(last, edge) {
        Ok(())
    } else {
        Err(Refusal::NotRising)
    }
}

// A path's vertex v, after the vertex `last` (0 before the first): 6, 7.
pub fn rise_fault(n: u32, last: u32, v: u32) -> Result<(), Refusal>
    ensures { told result ≡ rise_fault n last v }
{
    if !is_vertex(n, v) {
        return Err(Refusal::NoVertex);
    }
    if last < v {
        Ok(())
    } else {
        Err(Refusal::NotRising)
    }
}
