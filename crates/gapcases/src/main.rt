// Document 01's case of G1's read with its first and third anchors only: "the gaps are 2 and 1, the candidate 1", and "With weights 1 the candidate is
// −1." The gaps and the candidate are those of the step that both engines take; the score, the chain and the rounds are in the program chainvectors.
#![tactic(auto)]

ghost use Rattle.std.specs.Prelude.{◌<◌};

use candidates::candidate;
use pair_step::step::{graph_gap, read_gap};
use std::io;
use std::io::Write;

// Writes the gaps, and the candidate where the first anchor's score and the third's weight are this weight.
fn say_step(to: &mut impl Write, weight: u32, read: u32, graph: u32) -> io::Result<()>
    requires { (read < 1000) × (graph < 1000) }
{
    let one = candidate(weight, weight, read + graph);
    writeln!(
        to,
        "weights {weight} read gap {read} graph gap {graph} candidate {one}"
    )
}

// The first anchor ends at letter 2 of vertex 1 and at 2 on the read; the third starts at letter 1 of vertex 4 and at 5 on the read. The cover
// distance from vertex 1 to vertex 4 is 3, by hand: both paths reach vertex 4 at position 3, at distance 0, and before it path 1 has
// L(1) + L(2) = 3 and path 2 has L(1) + L(3) = 4.
fn main(rt: HostRuntime) -> io::Result<()> {
    let mut to = rt.stdout();
    let read = read_gap(2, 5);
    let graph = graph_gap(3, 1, 2);
    say_step(&mut to, 2, read, graph)?;
    say_step(&mut to, 1, read, graph)
}
