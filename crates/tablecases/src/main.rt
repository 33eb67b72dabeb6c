// Makes the tables of graph files through the entry `tables`: document 01's graphs, graphs with cycles, the path with edges both ways,
// refused files, and buffers of other sizes. For each it writes the answer and then `untouched` where every place of the buffers is as it
// was, else the digest of all places up to the full sizes, and for few vertices a line each: reach / distances / closed walk. A text holds cases: the
// name and the file of each, both ended by `|`.
#![tactic(auto)]

ghost use Rattle.std.specs.Prelude.{◌+◌, ◌*◌, ◌<◌, ◌≤◌, length};

use caseinput::digest::DIGEST_START;
use caseinput::entry::put_all;
use std::io;
use std::io::Write;
use tables::{TablesAnswer, tables};
use telling::{say, say_numbers};
use texts::{part, parts, say_filled};

// What every place of the buffers holds before a call.
const BEFORE: u32 = 7;

// The three tables of a graph file.
#[derive(Clone, Copy)]
struct Tables<'a> {
    reach: &'a [u32],
    distance: &'a [u32],
    closed: &'a [u32],
}

// Writes the row of vertex v + 1, k cells of each table.
fn show_row(to: &mut impl Write, made: Tables<'_>, v: u32, k: u32) -> io::Result<()> {
    let words: &[u8] = b" /|\n|";
    let row = v as usize;
    say_numbers(to, made.reach, 16 * row, k as usize)?;
    say(to, part(words, 0))?;
    say_numbers(to, made.distance, 16 * row, k as usize)?;
    say(to, part(words, 0))?;
    say_numbers(to, made.closed, row, 1)?;
    say(to, part(words, 1))
}

// Writes the rows of n vertices, k cells each.
fn show_rows(to: &mut impl Write, made: Tables<'_>, n: u32, k: u32) -> io::Result<()> {
    for v in 0..n {
        show_row(to, made, v, k)?;
    }
    Ok(())
}

// Whether every place is as it was.
fn untouched(table: &[u32]) -> bool {
    table.iter().all(|x| *x == BEFORE)
}

// Whether every place of the three is as it was.
fn all_untouched(made: Tables<'_>) -> bool {
    untouched(made.reach) && untouched(made.distance) && untouched(made.closed)
}

// The first k places of a table, or all where it has no more.
fn front(table: &[u32], k: usize) -> &[u32] {
    &table[..k.min(table.len())]
}

// The digest of the three tables, up to the full sizes.
fn digest_of(made: Tables<'_>) -> u64 {
    let one = put_all(DIGEST_START, front(made.reach, 16384));
    let two = put_all(one, front(made.distance, 16384));
    put_all(two, front(made.closed, 1024))
}

// Writes what the buffers hold.
fn tell_places(to: &mut impl Write, a: TablesAnswer, made: Tables<'_>) -> io::Result<()> {
    if all_untouched(made) {
        return say(to, b" untouched\n");
    }
    say_filled(to, b" digest #\n", &[digest_of(made)])?;
    if a.vertices <= 8 {
        show_rows(to, made, a.vertices, a.paths)?;
    }
    Ok(())
}

// Writes a case's answer.
fn say_answer(to: &mut impl Write, a: TablesAnswer) -> io::Result<()> {
    say_filled(
        to,
        b": number # file # place # n # K # rounds # #",
        &[
            a.number as u64,
            a.file as u64,
            a.place as u64,
            a.vertices as u64,
            a.paths as u64,
            a.reachrounds as u64,
            a.distancerounds as u64,
        ],
    )
}

// Writes a case's answer, and what the buffers hold.
fn tell(to: &mut impl Write, name: &[u8], a: TablesAnswer, made: Tables<'_>) -> io::Result<()> {
    say(to, name)?;
    say_answer(to, a)?;
    tell_places(to, a, made)
}

// Makes the tables of a file in lent buffers.
fn show_in(
    to: &mut impl Write,
    name: &[u8],
    file: &[u8],
    reach: &mut [u32],
    distance: &mut [u32],
    closed: &mut [u32],
) -> io::Result<()> {
    let a = tables(file, reach, distance, closed);
    tell(
        to,
        name,
        a,
        Tables {
            reach,
            distance,
            closed,
        },
    )
}

// Makes the tables of a file in buffers of R, D and C places.
fn show_sized<const R: usize, const D: usize, const C: usize>(
    to: &mut impl Write,
    name: &[u8],
    file: &[u8],
) -> io::Result<()>
    requires { (R ≤ 16384) × (D ≤ 16384) × (C ≤ 1024) }
{
    let mut reach = [BEFORE; R];
    let mut distance = [BEFORE; D];
    let mut closed = [BEFORE; C];
    show_in(to, name, file, &mut reach, &mut distance, &mut closed)
}

// Makes the tables of a file in buffers of full size.
fn show(to: &mut impl Write, name: &[u8], file: &[u8]) -> io::Result<()> {
    show_sized::<16384, 16384, 1024>(to, name, file)
}

// Writes what two places of each buffer hold.
fn show_beyond(
    to: &mut impl Write,
    reach: &[u32],
    distance: &[u32],
    closed: &[u32],
) -> io::Result<()> {
    say(to, b"beyond")?;
    say_numbers(to, reach, 16384, 1)?;
    say_numbers(to, reach, 16389, 1)?;
    say_numbers(to, distance, 16384, 1)?;
    say_numbers(to, distance, 16389, 1)?;
    say_numbers(to, closed, 1024, 1)?;
    say_numbers(to, closed, 1029, 1)?;
    say(to, b"\n")
}

// More places than the full sizes: those beyond stay as they were.
fn show_longer(to: &mut impl Write, name: &[u8], file: &[u8]) -> io::Result<()> {
    let mut reach = [BEFORE; 16390];
    let mut distance = [BEFORE; 16390];
    let mut closed = [BEFORE; 1030];
    show_in(to, name, file, &mut reach, &mut distance, &mut closed)?;
    show_beyond(to, &reach, &distance, &closed)
}

// Sets a place, where it is there.
fn set_byte(out: &mut [u8], at: usize, b: u8) {
    if let Some(place) = out.get_mut(at) {
        *place = b;
    }
}

// Sets two places, where they are there.
fn set_two(out: &mut [u8], at: usize, a: u8, b: u8)
    requires { at ≤ 65536 }
{
    set_byte(out, at, a);
    set_byte(out, at + 1, b);
}

// Writes a number of one or two bytes at a place, and says where it ends.
fn put(out: &mut [u8], at: usize, x: u32) -> usize
    requires { (at ≤ 65536) × (x < 16384) }
    ensures { result ≤ at + 2 }
{
    if x < 128 {
        set_byte(out, at, x as u8);
        return at + 1;
    }
    set_two(out, at, (x % 128 + 128) as u8, (x / 128) as u8);
    at + 2
}

// The label of vertex v: A where v is odd, CC where it is even.
fn put_label(out: &mut [u8], at: usize, v: u32) -> usize
    requires { at ≤ 65536 }
    ensures { result ≤ at + 3 }
{
    if v % 2 == 1 {
        set_two(out, at, 1, b'A');
        return at + 2;
    }
    set_two(out, at, 2, b'C');
    set_byte(out, at + 2, b'C');
    at + 3
}

// The labels of n vertices.
fn put_labels(out: &mut [u8], start: usize, n: u32) -> usize
    requires { (start ≤ 1024) × (n ≤ 1024) }
    ensures { result ≤ start + 3 * n }
{
    let mut at = start;
    for v in 0..n {
        at = put_label(out, at, v + 1);
    }
    at
}

// The edge from vertex u to vertex v.
fn put_edge(out: &mut [u8], at: usize, u: u32, v: u32) -> usize
    requires { (at ≤ 32768) × (u ≤ 1024) × (v ≤ 1024) }
    ensures { result ≤ at + 4 }
{
    let next = put(out, at, u);
    put(out, next, v)
}

// The edge from vertex v to the one before it, where there is one.
fn put_back(out: &mut [u8], at: usize, v: u32) -> usize
    requires { (at ≤ 32768) × (v ≤ 1024) }
    ensures { result ≤ at + 4 }
{
    if v <= 1 {
        return at;
    }
    put_edge(out, at, v, v - 1)
}

// The edge from vertex v to the one after it, where there is one.
fn put_on(out: &mut [u8], at: usize, v: u32, n: u32) -> usize
    requires { (at ≤ 32768) × (n ≤ 1024) }
    ensures { result ≤ at + 4 }
{
    if n <= v {
        return at;
    }
    put_edge(out, at, v, v + 1)
}

// Both of each vertex.
fn put_edges(out: &mut [u8], start: usize, n: u32) -> usize
    requires { (start ≤ 8192) × (n ≤ 1024) }
    ensures { result ≤ start + 8 * n }
{
    let mut at = start;
    for v in 0..n {
        let next = put_back(out, at, v + 1);
        at = put_on(out, next, v + 1, n);
    }
    at
}

// The numbers 1 to n.
fn put_path(out: &mut [u8], start: usize, n: u32) -> usize
    requires { (start ≤ 16384) × (n ≤ 1024) }
    ensures { result ≤ start + 2 * n }
{
    let mut at = start;
    for v in 0..n {
        at = put(out, at, v + 1);
    }
    at
}

// The graph file of n vertices in a row with edges both ways, and one path over all of them. Its tables take n rounds.
fn put_both_ways(out: &mut [u8], n: u32) -> usize
    requires { (1 ≤ n) × (n ≤ 1024) }
    ensures { result ≤ 16384 }
{
    let kind = put(out, 0, 1);
    let count = put(out, kind, n);
    let labels = put_labels(out, count, n);
    let m = put(out, labels, 2 * (n - 1));
    let edges = put_edges(out, m, n);
    let k = put(out, edges, 1);
    let long = put(out, k, n);
    put_path(out, long, n)
}

// Makes the tables of the file that a buffer's front is.
fn show_front(to: &mut impl Write, name: &[u8], bytes: &[u8], end: usize) -> io::Result<()>
    requires { end ≤ length bytes.now }
{
    show(to, name, &bytes[..end])
}

// Makes the tables of n vertices in a row with edges both ways.
fn show_both_ways(to: &mut impl Write, name: &[u8], n: u32) -> io::Result<()>
    requires { (1 ≤ n) × (n ≤ 1024) }
{
    let mut bytes = [0u8; 16384];
    let end = put_both_ways(&mut bytes, n);
    show_front(to, name, &bytes, end)
}

// Makes the tables of each file of a text, after its name.
fn show_all(to: &mut impl Write, text: &[u8]) -> io::Result<()> {
    for k in 0..parts(text) / 2 {
        show(to, part(text, 2 * k), part(text, 2 * k + 1))?;
    }
    Ok(())
}

// Buffers of other sizes: one place less in the reach table, in the distances, in the closed walks; and more places.
fn rooms(to: &mut impl Write, text: &[u8]) -> io::Result<()> {
    show_sized::<16383, 16384, 1024>(to, part(text, 0), part(text, 1))?;
    show_sized::<16384, 16383, 1024>(to, part(text, 2), part(text, 3))?;
    show_sized::<16384, 16384, 1023>(to, part(text, 4), part(text, 5))?;
    show_longer(to, part(text, 6), part(text, 7))
}

// The cases before and after the rows of vertices with edges both ways: graphs of document 01, and small ones with cycles; then refused files, and
// buffers of other sizes.
fn first_cases(to: &mut impl Write) -> io::Result<()> {
    show_all(
        to,
        b"G1|\x01\x04\x02AC\x01G\x02TT\x02CA\x04\x01\x02\x01\x03\x02\x04\x03\x04\x02\x03\x01\x02\x04\x03\x01\x03\x04|\
          G2|\x01\x03\x01A\x02CC\x01G\x03\x01\x02\x02\x03\x03\x02\x01\x03\x01\x02\x03|\
          one vertex|\x01\x01\x01A\x00\x01\x01\x01|\
          an edge to itself|\x01\x01\x03ACG\x01\x01\x01\x01\x01\x01|\
          a ring, paths 1 2 and 3|\x01\x03\x01A\x02CC\x03GGG\x03\x01\x02\x02\x03\x03\x01\x02\x02\x01\x02\x01\x03|\
          a fork, paths 1 2 and 3|\x01\x03\x01A\x02CC\x03GGG\x02\x01\x02\x01\x03\x02\x02\x01\x02\x01\x03|\
          no edges, paths 3, 2, 1 and 3|\x01\x03\x01A\x02CC\x03GGG\x00\x04\x01\x03\x01\x02\x01\x01\x01\x03|\
          two ways, one shorter|\x01\x04\x02AC\x09GGGGGGGGG\x01T\x01A\x05\x01\x02\x01\x03\x02\x04\x03\x04\x04\x01\x02\x03\x01\x02\x04\x01\x03|",
    )
}

fn last_cases(to: &mut impl Write) -> io::Result<()> {
    show_all(
        to,
        b"empty||\
          an anchor file|\x02\x01A\x00|\
          a path step that is no edge|\x01\x02\x01A\x01C\x00\x01\x02\x01\x02|\
          a vertex on no path|\x01\x02\x01A\x01C\x00\x01\x01\x01|\
          a byte left over|\x01\x01\x01A\x00\x01\x01\x01\x00|",
    )?;
    rooms(
        to,
        b"reach of 16383|\x01\x01\x01A\x00\x01\x01\x01|\
          distance of 16383|\x01\x01\x01A\x00\x01\x01\x01|\
          closed of 1023||\
          longer buffers|\x01\x03\x01A\x02CC\x01G\x03\x01\x02\x02\x03\x03\x02\x01\x03\x01\x02\x03|",
    )
}

fn main(rt: HostRuntime) -> io::Result<()> {
    let mut to = rt.stdout();
    first_cases(&mut to)?;
    show_both_ways(&mut to, b"both ways, 5 vertices", 5)?;
    show_both_ways(&mut to, b"both ways, 1024 vertices", 1024)?;
    last_cases(&mut to)
}
