// Cases of the listing, over the files of document 01's chapters "Listing" and "Checked by hand". After a case's name stands what is printed, byte
// for byte. The files' bytes are made by hand from document 01's words, and so is what must be written.
#![tactic(auto)]

use listing::{listing_room, output, printed};
use std::io;
use std::io::Write;

// Writes text.
fn say(to: &mut impl Write, text: &[u8]) -> io::Result<()> {
    to.write_all(text)
}

// A case: its name, and what is printed of two files, each with the room that it was loaded into and how many bytes of it are the file's, if it is there.
fn loaded_case(
    to: &mut impl Write,
    name: &[u8],
    g: Option<usize>,
    graph: &[u8],
    a: Option<usize>,
    anchors: &[u8],
) -> io::Result<()> {
    let mut out = listing_room();
    let n = output(
        g.and_then(|n| graph.get(..n)),
        a.and_then(|n| anchors.get(..n)),
        &mut out,
    );
    say(to, name)?;
    say(to, b"\n")?;
    say(to, printed(&out, n))
}

// A case of two files that are there.
fn case(to: &mut impl Write, name: &[u8], graph: &[u8], file: &[u8]) -> io::Result<()> {
    loaded_case(to, name, Some(graph.len()), graph, Some(file.len()), file)
}

// Graph G1 with an anchor file.
fn on_g1(to: &mut impl Write, name: &[u8], file: &[u8]) -> io::Result<()> {
    case(
        to,
        name,
        b"\x01\x04\x02AC\x01G\x02TT\x02CA\x04\x01\x02\x01\x03\x02\x04\x03\x04\x02\x03\x01\x02\x04\x03\x01\x03\x04",
        file,
    )
}

// Graph G2 with an anchor file.
fn on_g2(to: &mut impl Write, name: &[u8], file: &[u8]) -> io::Result<()> {
    case(
        to,
        name,
        b"\x01\x03\x01A\x02CC\x01G\x03\x01\x02\x02\x03\x03\x02\x01\x03\x01\x02\x03",
        file,
    )
}

// Accepted files.
fn accepted_cases(to: &mut impl Write) -> io::Result<()> {
    on_g1(
        to,
        b"G1 and its anchors",
        b"\x02\x06ACTTCA\x03\x01\x01\x01\x02\x02\x03\x01\x03\x02\x02\x04\x01\x05\x02\x02",
    )?;
    on_g1(
        to,
        b"first and third anchor",
        b"\x02\x06ACTTCA\x02\x01\x01\x01\x02\x02\x04\x01\x05\x02\x02",
    )?;
    on_g1(
        to,
        b"a first weight of 65535",
        b"\x02\x06ACTTCA\x03\x01\x01\x01\x02\xFF\xFF\x03\x03\x01\x03\x02\x02\x04\x01\x05\x02\x02",
    )?;
    on_g1(to, b"no anchors", b"\x02\x06ACTTCA\x00")?;
    on_g2(
        to,
        b"CCGCC over G2",
        b"\x02\x05CCGCC\x03\x02\x01\x01\x02\x02\x02\x01\x04\x02\x02\x03\x01\x03\x01\x01",
    )
}

// Refused files.
fn refused_cases(to: &mut impl Write) -> io::Result<()> {
    case(to, b"both files empty", b"", b"")?;
    on_g1(to, b"anchor file empty", b"")?;
    on_g1(to, b"a byte that is no letter", b"\x02\x06ACNTCA\x00")?;
    on_g1(to, b"bytes left over", b"\x02\x06ACTTCA\x00\x00")?;
    case(
        to,
        b"one byte less",
        b"\x01\x01\x01A\x00\x01\x01",
        b"\x02\x01A\x00",
    )?;
    case(
        to,
        b"a vertex on no path",
        b"\x01\x02\x01A\x01C\x00\x01\x01\x01",
        b"",
    )
}

// A graph file of 65,537 bytes.
fn long_case(to: &mut impl Write) -> io::Result<()> {
    let long = [1u8; 65537];
    case(to, b"graph file too long", &long, b"")
}

// Missing files. What the room of such a file holds is not looked at.
fn missing_cases(to: &mut impl Write) -> io::Result<()> {
    let good = b"\x01\x01\x01A\x00\x01\x01\x01";
    let anchors = b"\x02\x01A\x00";
    loaded_case(to, b"both files missing", None, good, None, anchors)?;
    loaded_case(to, b"no graph file", None, good, Some(4), anchors)?;
    loaded_case(to, b"no anchor file", Some(8), good, None, anchors)?;
    loaded_case(
        to,
        b"no anchor file and a graph file at fault",
        Some(0),
        good,
        None,
        anchors,
    )?;
    loaded_case(
        to,
        b"no graph file and an anchor file at fault",
        None,
        good,
        Some(0),
        anchors,
    )
}

// Rooms longer than the files: the files' bytes are the first of them.
fn room_cases(to: &mut impl Write) -> io::Result<()> {
    let graph = b"\x01\x01\x01A\x00\x01\x01\x01\x00";
    let anchors = b"\x02\x01A\x00\x00";
    loaded_case(
        to,
        b"the front of each room",
        Some(8),
        graph,
        Some(4),
        anchors,
    )?;
    loaded_case(
        to,
        b"the whole room of the anchors",
        Some(8),
        graph,
        Some(5),
        anchors,
    )
}

fn main(rt: HostRuntime) -> io::Result<()> {
    let mut to = rt.stdout();
    accepted_cases(&mut to)?;
    refused_cases(&mut to)?;
    long_case(&mut to)?;
    missing_cases(&mut to)?;
    room_cases(&mut to)
}
