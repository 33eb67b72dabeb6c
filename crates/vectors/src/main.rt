// Cases of document 01's chapter "Checked by hand", and of the listing's files, through the entries: numbers, graph files, the letters of an anchor.
// (Tables are those of the program `tablevectors`, chains those of `chainvectors`.) The files' bytes are made by hand from document 01's words, and
// so is what must be written. Bytes are written in hexadecimal digits, all else in decimal numbers. A lent buffer's places hold something else
// before each call: after `zero` stands how many of them hold 0, after `before` how many are as they were.
#![tactic(auto)]

mod graphs; // graphs.rt: graph files, read and written back
mod numbers; // numbers.rt: numbers, written and read
mod views; // views.rt: the letters of an anchor

use std::io;

fn main(rt: HostRuntime) -> io::Result<()> {
    let mut to = rt.stdout();
    numbers::number_cases(&mut to)?;
    graphs::graph_cases(&mut to)?;
    views::view_cases(&mut to)
}
