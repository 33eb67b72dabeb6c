// Answers stored cases of the two writers, which standard input holds as records; then one byte 0. A number has 4 bytes, lowest first:
//
//     1 byte    kind: 1 the graph writer, 2 the anchor writer
//     4 bytes   the output's room
//
// then for the graph writer n, m, K and the buffers letters, lengths, edges, paths and counts; for the anchor writer the length of the graph file,
// the graph file, r, N and the buffers letters and anchors. A buffer is its size, how many runs of places that are not 0, and for each run its
// first place, how many, and the entries: 1 byte for a letter, 4 for a number. The size may be below or above the full one.
//
// One line is written for each: `refused NUMBER file FILE place PLACE`, or `written LENGTH DIGEST`, the digest being that of the bytes written. Where a
// byte past the last one written is not as it was, or the answer's other numbers are not 0, the line says so.
#![tactic(auto)]

ghost use Rattle.caseinput.specs.Counts.{IsPrefixLen};

use anchors_write::write_anchors;
use caseinput::digest::DIGEST_START;
use caseinput::entry::{put_all, read_buffer};
use caseinput::input::{read_file, read_kind, read_number};
use graph_write::write_graph;
use std::io;
use std::io::{Read, Write};
use telling::{BYTE_BEFORE, say};
use texts::say_filled;

// Whether every byte is as it was.
fn untouched(bytes: &[u8]) -> bool {
    bytes.iter().all(|b| *b == BYTE_BEFORE)
}

// How many bytes of a buffer a number counts.
fn kept_of(bytes: &[u8], x: u32) -> usize
    ensures { IsPrefixLen result bytes.now }
{
    (x as usize).min(bytes.len())
}

// Writes the line of a refusal.
fn say_refusal(to: &mut impl Write, number: u32, file: u32, place: u32) -> io::Result<()> {
    say_filled(
        to,
        b"refused # file # place #\n",
        &[number as u64, file as u64, place as u64],
    )
}

// Writes the line of bytes that were written.
fn say_written(to: &mut impl Write, bytes: &[u8]) -> io::Result<()> {
    say_filled(
        to,
        b"written # #\n",
        &[bytes.len() as u64, put_all(DIGEST_START, bytes)],
    )
}

// Writes a case's line: the answer's number, file, place and bytes, and the output.
fn tell(
    to: &mut impl Write,
    number: u32,
    file: u32,
    place: u32,
    bytes: u32,
    out: &[u8],
) -> io::Result<()> {
    let kept = kept_of(out, bytes);
    if !untouched(&out[kept..]) {
        return say(to, b"more was written\n");
    }
    if number == 0 {
        if file != 0 || place != 0 {
            return say(to, b"an acceptance has a file or a place\n");
        }
        return say_written(to, &out[..kept]);
    }
    if bytes != 0 {
        return say(to, b"a refusal has bytes\n");
    }
    say_refusal(to, number, file, place)
}

// Rooms: for letters, for a file, and for the output, each with some places more than the full size.
fn letter_room() -> [u8; 32868] {
    [0u8; 32868]
}

fn file_room() -> [u8; 65537] {
    [0u8; 65537]
}

fn out_room() -> [u8; 100000] {
    [BYTE_BEFORE; 100000]
}

// ---- the graph writer: each function reads one more of its buffers

// The counts of a case, and its buffers, as far as they are read.
#[derive(Clone, Copy)]
struct Content<'a> {
    n: u32,
    m: u32,
    k: u32,
    letters: &'a [u8],
    lengths: &'a [u32],
    edges: &'a [u32],
    paths: &'a [u32],
    counts: &'a [u32],
}

// Calls the writer.
fn write_into(to: &mut impl Write, g: Content<'_>, out: &mut [u8]) -> io::Result<()> {
    let answer = write_graph(
        g.n, g.m, g.k, g.letters, g.lengths, g.edges, g.paths, g.counts, out,
    );
    tell(
        to,
        answer.number,
        answer.file,
        answer.place,
        answer.bytes,
        out,
    )
}

fn with_room(to: &mut impl Write, g: Content<'_>, room: u32) -> io::Result<()> {
    let mut out = out_room();
    let room = kept_of(&out, room);
    write_into(to, g, &mut out[..room])
}

fn with_counts(
    from: &mut impl Read,
    to: &mut impl Write,
    g: Content<'_>,
    room: u32,
) -> io::Result<()> {
    let mut counts = [0u32; 116];
    let size = read_buffer(from, &mut counts)?;
    with_room(
        to,
        Content {
            counts: &counts[..size],
            ..g
        },
        room,
    )
}

fn with_paths(
    from: &mut impl Read,
    to: &mut impl Write,
    g: Content<'_>,
    room: u32,
) -> io::Result<()> {
    let mut paths = [0u32; 16484];
    let size = read_buffer(from, &mut paths)?;
    with_counts(
        from,
        to,
        Content {
            paths: &paths[..size],
            ..g
        },
        room,
    )
}

fn with_edges(
    from: &mut impl Read,
    to: &mut impl Write,
    g: Content<'_>,
    room: u32,
) -> io::Result<()> {
    let mut edges = [0u32; 8292];
    let size = read_buffer(from, &mut edges)?;
    with_paths(
        from,
        to,
        Content {
            edges: &edges[..size],
            ..g
        },
        room,
    )
}

fn with_lengths(
    from: &mut impl Read,
    to: &mut impl Write,
    g: Content<'_>,
    room: u32,
) -> io::Result<()> {
    let mut lengths = [0u32; 1124];
    let size = read_buffer(from, &mut lengths)?;
    with_edges(
        from,
        to,
        Content {
            lengths: &lengths[..size],
            ..g
        },
        room,
    )
}

fn answer_graph(from: &mut impl Read, to: &mut impl Write) -> io::Result<()> {
    let room = read_number(from)?;
    let n = read_number(from)?;
    let m = read_number(from)?;
    let k = read_number(from)?;
    let mut letters = letter_room();
    let size = read_buffer(from, &mut letters)?;
    let g = Content {
        n,
        m,
        k,
        letters: &letters[..size],
        lengths: &[],
        edges: &[],
        paths: &[],
        counts: &[],
    };
    with_lengths(from, to, g, room)
}

// ---- the anchor writer: the same

// The counts of a case, its buffers, as far as they are read, and the graph file.
#[derive(Clone, Copy)]
struct Anchors<'a> {
    r: u32,
    n: u32,
    letters: &'a [u8],
    numbers: &'a [u32],
    graph: &'a [u8],
}

fn write_over(to: &mut impl Write, a: Anchors<'_>, out: &mut [u8]) -> io::Result<()> {
    let answer = write_anchors(a.r, a.n, a.letters, a.numbers, a.graph, out);
    tell(
        to,
        answer.number,
        answer.file,
        answer.place,
        answer.bytes,
        out,
    )
}

fn over_room(to: &mut impl Write, a: Anchors<'_>, room: u32) -> io::Result<()> {
    let mut out = out_room();
    let size = kept_of(&out, room);
    write_over(to, a, &mut out[..size])
}

fn over_anchors(
    from: &mut impl Read,
    to: &mut impl Write,
    a: Anchors<'_>,
    room: u32,
) -> io::Result<()> {
    let mut anchors = [0u32; 10340];
    let size = read_buffer(from, &mut anchors)?;
    over_room(
        to,
        Anchors {
            numbers: &anchors[..size],
            ..a
        },
        room,
    )
}

fn over_graph(
    from: &mut impl Read,
    to: &mut impl Write,
    room: u32,
    graph: &[u8],
) -> io::Result<()> {
    let r = read_number(from)?;
    let n = read_number(from)?;
    let mut letters = letter_room();
    let size = read_buffer(from, &mut letters)?;
    let a = Anchors {
        r,
        n,
        letters: &letters[..size],
        numbers: &[],
        graph,
    };
    over_anchors(from, to, a, room)
}

fn answer_anchors(from: &mut impl Read, to: &mut impl Write) -> io::Result<()> {
    let room = read_number(from)?;
    let mut graph = file_room();
    let size = read_file(from, &mut graph)?;
    over_graph(from, to, room, &graph[..size])
}

// ---- the records

// Which writer a record is for.
#[derive(Clone, Copy)]
enum Kind {
    Graph,
    Anchors,
}

// A record's kind; 0 stands after the last record.
fn kind_of(b: u8) -> Option<Kind> {
    match b {
        0 => None,
        1 => Some(Kind::Graph),
        _ => Some(Kind::Anchors),
    }
}

// Answers record after record: at most 1,000,000, so that it ends on any input.
fn main(rt: HostRuntime) -> io::Result<()> {
    let mut from = rt.stdin();
    let mut to = rt.stdout();
    for _ in 0..1000000 {
        let Some(kind) = kind_of(read_kind(&mut from)?) else {
            break;
        };
        match kind {
            Kind::Graph => answer_graph(&mut from, &mut to)?,
            Kind::Anchors => answer_anchors(&mut from, &mut to)?,
        }
    }
    Ok(())
}
