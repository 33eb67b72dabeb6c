// Runs the check of a graph file on document 01's cases and on bad input, and writes one line for each: the sections, or the refusal's
// number and place. What must be written was worked out by hand from document 01. A text holds the cases of one kind: their heading, and then
// the files, each ended by `|`. What each file is stands above the text, in the same order.
#![tactic(auto)]

use graph_check::check_graph;
use std::io;
use std::io::Write;
use texts::{part, parts, say_filled};

// Writes what the check says of a file.
fn show(to: &mut impl Write, file: &[u8]) -> io::Result<()> {
    match check_graph(file) {
        Ok(s) => say_filled(
            to,
            b"accepted n # letters # labels # m # edges # K # paths #\n",
            &[
                s.n as u64,
                s.letters as u64,
                s.labels as u64,
                s.m as u64,
                s.edges as u64,
                s.k as u64,
                s.paths as u64,
            ],
        ),
        Err(fault) => {
            let number = u32::from(fault.refusal);
            say_filled(
                to,
                b"refused # place #\n",
                &[number as u64, fault.place as u64],
            )
        }
    }
}

// Writes the heading of a text, and what the check says of each of its files.
fn show_all(to: &mut impl Write, text: &[u8]) -> io::Result<()> {
    say_filled(to, part(text, 0), &[])?;
    for k in 1..parts(text) {
        show(to, part(text, k))?;
    }
    Ok(())
}

// In order: the empty file; one vertex, one path; one byte less; one byte more; no path; vertex 2 is on no path; G1; G2; an edge to itself.
fn worked(to: &mut impl Write) -> io::Result<()> {
    show_all(
        to,
        b"document 01\n|\
          |\
          \x01\x01\x01\x41\x00\x01\x01\x01|\
          \x01\x01\x01\x41\x00\x01\x01|\
          \x01\x01\x01\x41\x00\x01\x01\x01\x00|\
          \x01\x01\x01\x41\x00\x00|\
          \x01\x02\x01\x41\x01\x43\x00\x01\x01\x01|\
          \x01\x04\x02\x41\x43\x01\x47\x02\x54\x54\x02\x43\x41\x04\x01\x02\x01\x03\x02\x04\x03\x04\x02\x03\x01\x02\x04\x03\x01\x03\x04|\
          \x01\x03\x01\x41\x02\x43\x43\x01\x47\x03\x01\x02\x02\x03\x03\x02\x01\x03\x01\x02\x03|\
          \x01\x01\x01\x41\x01\x01\x01\x01\x01\x01|",
    )
}

// In order: a last byte 0 of several; a fifth byte 16; a fifth byte 16, as n; a fifth byte 128; the bytes end within n; four bytes that go on;
// an anchor file; kind 0; kind 4,294,967,295.
fn numbers(to: &mut impl Write) -> io::Result<()> {
    show_all(
        to,
        b"numbers and kind\n|\
          \x80\x00|\
          \xff\xff\xff\xff\x10|\
          \x01\xff\xff\xff\xff\x10|\
          \x01\x80\x80\x80\x80\x80|\
          \x01\x80|\
          \x01\x80\x80\x80\x80|\
          \x02|\
          \x00|\
          \xff\xff\xff\xff\x0f|",
    )
}

// In order: n 0; n 1,025; n 1,024; n 4,294,967,295; m 4,097; m 4,096; m 4,294,967,295; K 17; K 16; K 4,294,967,295; a path of 0 vertices;
// a path of n + 1 vertices; a path of 4,294,967,295 vertices.
fn counts(to: &mut impl Write) -> io::Result<()> {
    show_all(
        to,
        b"counts\n|\
          \x01\x00|\
          \x01\x81\x08|\
          \x01\x80\x08|\
          \x01\xff\xff\xff\xff\x0f|\
          \x01\x01\x01\x41\x81\x20|\
          \x01\x01\x01\x41\x80\x20|\
          \x01\x01\x01\x41\xff\xff\xff\xff\x0f|\
          \x01\x01\x01\x41\x00\x11|\
          \x01\x01\x01\x41\x00\x10|\
          \x01\x01\x01\x41\x00\xff\xff\xff\xff\x0f|\
          \x01\x01\x01\x41\x00\x01\x00|\
          \x01\x01\x01\x41\x00\x01\x02|\
          \x01\x01\x01\x41\x00\x01\xff\xff\xff\xff\x0f|",
    )
}

// In order: no label; length 0; length 32,769; length 32,768, and the bytes end; length 32,768, and a bad byte before the end; length 4,294,967,295;
// 1 and 32,768 letters together; 1 and 4,294,967,295 letters together; 1 and 32,767 letters together; a lower-case letter;
// the second letter is none.
fn labels(to: &mut impl Write) -> io::Result<()> {
    show_all(
        to,
        b"labels\n|\
          \x01\x01|\
          \x01\x01\x00|\
          \x01\x01\x81\x80\x02|\
          \x01\x01\x80\x80\x02\x41|\
          \x01\x01\x80\x80\x02\x41\x4e|\
          \x01\x01\xff\xff\xff\xff\x0f|\
          \x01\x02\x01\x41\x80\x80\x02|\
          \x01\x02\x01\x41\xff\xff\xff\xff\x0f|\
          \x01\x02\x01\x41\xff\xff\x01|\
          \x01\x01\x01\x61|\
          \x01\x01\x02\x41\x42|",
    )
}

// In order: no m; an edge from vertex 0; an edge to vertex 0; an edge to vertex n + 1; an edge from vertex 4,294,967,295;
// the bytes end after a bad first vertex; a bad second number after a bad first vertex; the same edge twice; edges 2-1, 1-2;
// an edge from vertex 0 after 1-1.
fn edges(to: &mut impl Write) -> io::Result<()> {
    show_all(
        to,
        b"edges\n|\
          \x01\x01\x01\x41|\
          \x01\x01\x01\x41\x01\x00\x01|\
          \x01\x01\x01\x41\x01\x01\x00|\
          \x01\x01\x01\x41\x01\x01\x02|\
          \x01\x01\x01\x41\x01\xff\xff\xff\xff\x0f\x01|\
          \x01\x01\x01\x41\x01\x02|\
          \x01\x01\x01\x41\x01\x02\x80\x00|\
          \x01\x01\x01\x41\x02\x01\x01\x01\x01|\
          \x01\x02\x01\x41\x01\x43\x02\x02\x01\x01\x02|\
          \x01\x01\x01\x41\x02\x01\x01\x00\x01|",
    )
}

// In order: no K; vertex 0; vertex n + 1; vertex 0 after 1; 2 1 over edges 1-2, 2-1; 1 1 over an edge 1-1; 1 2 over no edge; 1 2 over an edge 2-1;
// G1 with a second path 1 2 3; a vertex on no path, and a byte left over; two equal paths.
fn paths(to: &mut impl Write) -> io::Result<()> {
    show_all(
        to,
        b"paths\n|\
          \x01\x01\x01\x41\x00|\
          \x01\x01\x01\x41\x00\x01\x01\x00|\
          \x01\x01\x01\x41\x00\x01\x01\x02|\
          \x01\x02\x01\x41\x01\x43\x00\x01\x02\x01\x00|\
          \x01\x02\x01\x41\x01\x43\x02\x01\x02\x02\x01\x01\x02\x02\x01|\
          \x01\x02\x01\x41\x01\x43\x01\x01\x01\x01\x02\x01\x01|\
          \x01\x02\x01\x41\x01\x43\x00\x01\x02\x01\x02|\
          \x01\x02\x01\x41\x01\x43\x01\x02\x01\x01\x02\x01\x02|\
          \x01\x04\x02\x41\x43\x01\x47\x02\x54\x54\x02\x43\x41\x04\x01\x02\x01\x03\x02\x04\x03\x04\x02\x03\x01\x02\x04\x03\x01\x02\x03|\
          \x01\x02\x01\x41\x01\x43\x00\x01\x01\x01\x00|\
          \x01\x01\x01\x41\x00\x02\x01\x01\x01\x01|",
    )
}

// 65,536 and 65,537 bytes 0.
fn full_room() -> [u8; 65536] {
    [0u8; 65536]
}

fn over_room() -> [u8; 65537] {
    [0u8; 65537]
}

// Files of 65,536 and 65,537 bytes 0: the first is not too long.
fn long(to: &mut impl Write) -> io::Result<()> {
    show_all(to, b"long files\n|")?;
    let full = full_room();
    show(to, &full)?;
    let over = over_room();
    show(to, &over)
}

fn main(rt: HostRuntime) -> io::Result<()> {
    let mut to = rt.stdout();
    worked(&mut to)?;
    numbers(&mut to)?;
    counts(&mut to)?;
    labels(&mut to)?;
    edges(&mut to)?;
    paths(&mut to)?;
    long(&mut to)
}
