// Cases of the listing program's files: there, missing, or a folder in place of a file. After a case's name stands what is printed. The folder
// that this is run in has G1 with its anchors, an empty file and a folder.
#![tactic(auto)]

use listing_files::print_listing;
use std::io;
use std::io::Write;
use std::rt::Files;
use telling::say;

// A case: its name, and what is printed of the two files.
fn case(
    rt: &impl Files,
    to: &mut impl Write,
    name: &[u8],
    graph: &[u8],
    anchors: &[u8],
) -> io::Result<()> {
    say(to, name)?;
    say(to, b"\n")?;
    print_listing(rt, to, graph, anchors)
}

// Files that are there.
fn there_cases(rt: &impl Files, to: &mut impl Write) -> io::Result<()> {
    case(rt, to, b"G1 and its anchors", b"graph.bin", b"anchors.bin")?;
    case(
        rt,
        to,
        b"each file in place of the other",
        b"anchors.bin",
        b"graph.bin",
    )?;
    case(rt, to, b"an empty graph file", b"empty.bin", b"anchors.bin")?;
    case(rt, to, b"an empty anchor file", b"graph.bin", b"empty.bin")
}

// Files that are missing, and folders.
fn missing_cases(rt: &impl Files, to: &mut impl Write) -> io::Result<()> {
    case(rt, to, b"both files missing", b"none.bin", b"none.bin")?;
    case(rt, to, b"no graph file", b"none.bin", b"anchors.bin")?;
    case(rt, to, b"no anchor file", b"graph.bin", b"none.bin")?;
    case(
        rt,
        to,
        b"a folder in place of the graph file",
        b"folder",
        b"anchors.bin",
    )?;
    case(
        rt,
        to,
        b"a folder in place of the anchor file",
        b"graph.bin",
        b"folder",
    )
}

// A missing file and a file at fault.
fn fault_cases(rt: &impl Files, to: &mut impl Write) -> io::Result<()> {
    case(
        rt,
        to,
        b"no anchor file and a graph file at fault",
        b"empty.bin",
        b"none.bin",
    )?;
    case(
        rt,
        to,
        b"no graph file and an anchor file at fault",
        b"none.bin",
        b"empty.bin",
    )
}

fn main(rt: HostRuntime) -> io::Result<()> {
    let mut to = rt.stdout();
    there_cases(&rt, &mut to)?;
    missing_cases(&rt, &mut to)?;
    fault_cases(&rt, &mut to)
}
