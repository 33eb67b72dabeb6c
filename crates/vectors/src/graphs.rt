// Graph files, read into buffers of full size and, where accepted, written back.
use graph_read::{GraphAnswer, read_graph};
use graph_write::{WrittenAnswer, write_graph};
use std::io;
use std::io::Write;
use telling::{BYTE_BEFORE, NUMBER_BEFORE, count, say, say_bytes};
use texts::{part, parts, say_filled};

// Writes the reader's answer.
fn say_answer(to: &mut impl Write, answer: GraphAnswer) -> io::Result<()> {
    say_filled(
        to,
        b"number # file # place # n # letters # m # K #",
        &[
            answer.number as u64,
            answer.file as u64,
            answer.place as u64,
            answer.vertices as u64,
            answer.letters as u64,
            answer.edges as u64,
            answer.paths as u64,
        ],
    )
}

// The buffers that hold a graph's content.
#[derive(Clone, Copy)]
struct Content<'a> {
    letters: &'a [u8],
    lengths: &'a [u32],
    edges: &'a [u32],
    paths: &'a [u32],
    counts: &'a [u32],
}

// Writes after a word how many places of each buffer hold a byte, or a number.
fn say_count(to: &mut impl Write, word: &[u8], b: u8, x: u32, held: Content<'_>) -> io::Result<()> {
    say_filled(
        to,
        word,
        &[
            count(held.letters, b),
            count(held.lengths, x),
            count(held.edges, x),
            count(held.paths, x),
            count(held.counts, x),
        ],
    )
}

// Writes how many places of each buffer hold 0, and how many are as they were.
fn say_places(to: &mut impl Write, held: Content<'_>) -> io::Result<()> {
    say_count(to, b" zero # # # # #", 0, 0, held)?;
    say_count(to, b" before # # # # #\n", BYTE_BEFORE, NUMBER_BEFORE, held)
}

// Writes the writer's answer, and the bytes that it wrote.
fn tell_written(to: &mut impl Write, answer: WrittenAnswer, out: &[u8]) -> io::Result<()> {
    say_filled(
        to,
        b"written number # bytes #",
        &[answer.number as u64, answer.bytes as u64],
    )?;
    say_bytes(to, out, answer.bytes as usize)?;
    say(to, b"\n")
}

// Writes the content back, into an output of 31 bytes, which is what G1 takes.
fn write_back(to: &mut impl Write, read: GraphAnswer, held: Content<'_>) -> io::Result<()> {
    let mut out = [BYTE_BEFORE; 31];
    let answer = write_graph(
        read.vertices,
        read.edges,
        read.paths,
        held.letters,
        held.lengths,
        held.edges,
        held.paths,
        held.counts,
        &mut out,
    );
    tell_written(to, answer, &out)
}

// What the reader made is written, and written back where it is accepted.
fn tell(to: &mut impl Write, answer: GraphAnswer, held: Content<'_>) -> io::Result<()> {
    say_answer(to, answer)?;
    say_places(to, held)?;
    if answer.number == 0 {
        write_back(to, answer, held)?;
    }
    Ok(())
}

// The longer buffers, of full size.
fn letter_room() -> [u8; 32768] {
    [BYTE_BEFORE; 32768]
}

fn edge_room() -> [u32; 8192] {
    [NUMBER_BEFORE; 8192]
}

fn path_room() -> [u32; 16384] {
    [NUMBER_BEFORE; 16384]
}

// Reads a file of a text into buffers of full size and writes it back.
fn graph_case(to: &mut impl Write, text: &[u8], name: usize, file: usize) -> io::Result<()> {
    let mut letters = letter_room();
    let mut lengths = [NUMBER_BEFORE; 1024];
    let mut edges = edge_room();
    let mut paths = path_room();
    let mut counts = [NUMBER_BEFORE; 16];
    say(to, part(text, name))?;
    let answer = read_graph(
        part(text, file),
        &mut letters,
        &mut lengths,
        &mut edges,
        &mut paths,
        &mut counts,
    );
    tell(
        to,
        answer,
        Content {
            letters: &letters,
            lengths: &lengths,
            edges: &edges,
            paths: &paths,
            counts: &counts,
        },
    )
}

// The cases of a text, after its heading: a name and a file for each.
fn cases_of(to: &mut impl Write, text: &[u8]) -> io::Result<()> {
    say(to, part(text, 0))?;
    for k in 0..parts(text) / 2 {
        graph_case(to, text, 2 * k + 1, 2 * k + 2)?;
    }
    Ok(())
}

// All graph files: those that "Checked by hand" gives by their bytes, and the graphs of the other cases. (G2 has labels A, CC, G; edges 1-2, 2-3, 3-2;
// one path 1 2 3.)
pub fn graph_cases(to: &mut impl Write) -> io::Result<()> {
    cases_of(
        to,
        b"graph files\n|\
          the empty file: ||\
          one vertex A: |\x01\x01\x01\x41\x00\x01\x01\x01|\
          one byte less: |\x01\x01\x01\x41\x00\x01\x01|\
          one byte more: |\x01\x01\x01\x41\x00\x01\x01\x01\x00|\
          K 0: |\x01\x01\x01\x41\x00\x00|\
          vertex 2 on no path: |\x01\x02\x01\x41\x01\x43\x00\x01\x01\x01|\
          G1: |\x01\x04\x02\x41\x43\x01\x47\x02\x54\x54\x02\x43\x41\x04\x01\x02\x01\x03\x02\x04\x03\x04\x02\x03\x01\x02\x04\x03\x01\x03\x04|\
          G2: |\x01\x03\x01\x41\x02\x43\x43\x01\x47\x03\x01\x02\x02\x03\x03\x02\x01\x03\x01\x02\x03|\
          one vertex A with an edge to itself: |\x01\x01\x01\x41\x01\x01\x01\x01\x01\x01|",
    )
}
