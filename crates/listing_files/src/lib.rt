// Prints the listing of two files, named by the caller. What is printed is laid by `listing`, whose promise goes by what loading each file gave.
#![tactic(auto)]

ghost use Rattle.std.specs.Prelude.{OnOk};
ghost use Rattle.listing_files.specs.Files.{Wrote};

mod files; // files.rt: loading a file

use files::{file_room, load};
use listing::{listing_room, output, printed};
use std::io;
use std::io::Write;
use std::rt::Files;

// Both files are read, the graph file first; then what is printed of them is laid and written. The only error is the writer's own.
pub fn print_listing<W: Write>(
    rt: &impl Files,
    to: &mut W,
    graph_name: &[u8],
    anchors_name: &[u8],
) -> io::Result<()>
    ensures { OnOk result (Wrote (W.contents to.old) (W.contents to.new)) }
{
    let mut graph = file_room();
    let mut anchors = file_room();
    let g = load(rt, graph_name, &mut graph);
    let a = load(rt, anchors_name, &mut anchors);
    let mut out = listing_room();
    let n = output(g, a, &mut out);
    to.write_all(printed(&out, n))
}
