// Cases of the graph writer. Each line has the case's name, then the answer's number, file, place and bytes, then `untouched` where the output
// is as it was, and the bytes written, in hexadecimal digits, where they are no more than 64. A case is graph G1 of document 01 with the changes
// that its name says, or a large graph whose file is just short enough, or too long. From `1023 lengths, n 0` on a case has two faults, of rules
// that follow one another: the first in document 01's order is the answer.
// One text has the changes that make G1 and the large graph of buffers of zeros, and then each case's name and changes (crate changes). The lists
// are n, m, K; F, how many lengths are lent; R, the output's room; B, how many labels of the large graph are the longer ones; the letters s, the
// lengths L, the edges E, the paths P and the counts C.
#![tactic(auto)]

ghost use Rattle.std.specs.Prelude.{◌≤◌, ◌<◌};

use changes::{change_entries, changed};
use graph_write::{WrittenAnswer, write_graph};
use std::io;
use std::io::Write;
use telling::{BYTE_BEFORE, say, say_bytes};
use texts::{part, parts, say_filled};

// Whether every byte is as it was.
fn untouched(bytes: &[u8]) -> bool {
    bytes.iter().all(|b| *b == BYTE_BEFORE)
}

// Writes the answer.
fn say_answer(to: &mut impl Write, a: WrittenAnswer) -> io::Result<()> {
    say_filled(
        to,
        b": # # # #",
        &[
            a.number as u64,
            a.file as u64,
            a.place as u64,
            a.bytes as u64,
        ],
    )
}

// Writes what stands in the output, of which so many bytes were written.
fn say_output(to: &mut impl Write, out: &[u8], bytes: u32) -> io::Result<()> {
    if untouched(out) {
        say(to, b" untouched")?;
    }
    if bytes <= 64 {
        say_bytes(to, out, bytes as usize)?;
    }
    say(to, b"\n")
}

// Writes a case's line: the answer, and what stands in the output.
fn tell(to: &mut impl Write, name: &[u8], answer: WrittenAnswer, out: &[u8]) -> io::Result<()> {
    say(to, name)?;
    say_answer(to, answer)?;
    say_output(to, out, answer.bytes)
}

// Sets a place, where it is there.
fn set_number(numbers: &mut [u32], at: usize, x: u32) {
    if let Some(place) = numbers.get_mut(at) {
        *place = x;
    }
}

// The large graph, where `longer` is not 0: 1,024 vertices in a row, on each of 16 paths, with labels of 29 letters, but 30 for the first `longer`. Its
// file has 65,333 bytes and one more for each label of 30 letters.
fn large_vertices(longer: u32) -> u32
    ensures { result ≤ 1024 }
{
    if 0 < longer { 1024 } else { 0 }
}

// The edge from each vertex v to the next.
fn set_edges(edges: &mut [u32], vertices: u32)
    requires { vertices ≤ 1024 }
{
    for v in 1..vertices {
        let at = 2 * (v as usize) - 2;
        set_number(edges, at, v);
        set_number(edges, at + 1, v + 1);
    }
}

// Vertex v + 1 on each path.
fn set_stop(paths: &mut [u32], v: u32)
    requires { v < 1024 }
{
    for i in 0..16 {
        set_number(paths, 1024 * i + (v as usize), v + 1);
    }
}

fn set_paths(paths: &mut [u32], vertices: u32)
    requires { vertices ≤ 1024 }
{
    for v in 0..vertices {
        set_stop(paths, v);
    }
}

// The letters of the large graph, each an A, or none.
fn letters_before(longer: u32) -> [u8; 32768] {
    if 0 < longer {
        [b'A'; 32768]
    } else {
        [0u8; 32768]
    }
}

// The content of a case: zeros or the large graph, with the changes of `base` and of the case.
fn letters_of(base: &[u8], changes: &[u8], longer: u32) -> [u8; 32768] {
    let mut letters = letters_before(longer);
    change_entries(base, b's', &mut letters);
    change_entries(changes, b's', &mut letters);
    letters
}

fn lengths_of(base: &[u8], changes: &[u8], longer: u32) -> [u32; 1024] {
    let mut numbers = if 0 < longer { [29; 1024] } else { [0; 1024] };
    numbers[..(longer as usize).min(1024)].fill(30);
    change_entries(base, b'L', &mut numbers);
    change_entries(changes, b'L', &mut numbers);
    numbers
}

fn edges_of(base: &[u8], changes: &[u8], longer: u32) -> [u32; 8192] {
    let mut numbers = [0u32; 8192];
    set_edges(&mut numbers, large_vertices(longer));
    change_entries(base, b'E', &mut numbers);
    change_entries(changes, b'E', &mut numbers);
    numbers
}

fn paths_of(base: &[u8], changes: &[u8], longer: u32) -> [u32; 16384] {
    let mut numbers = [0u32; 16384];
    set_paths(&mut numbers, large_vertices(longer));
    change_entries(base, b'P', &mut numbers);
    change_entries(changes, b'P', &mut numbers);
    numbers
}

fn counts_of(base: &[u8], changes: &[u8]) -> [u32; 16] {
    let mut numbers = [0u32; 16];
    change_entries(base, b'C', &mut numbers);
    change_entries(changes, b'C', &mut numbers);
    numbers
}

// A number of a case.
fn number_of(base: &[u8], changes: &[u8], list: u8) -> u32 {
    changed(changes, list, changed(base, list, 0))
}

// A number of a case as a length, at most so much.
fn size_of(base: &[u8], changes: &[u8], list: u8, most: usize) -> usize
    ensures { result ≤ most }
{
    (number_of(base, changes, list) as usize).min(most)
}

// Runs a case with its content and output.
fn run_into(
    to: &mut impl Write,
    name: &[u8],
    base: &[u8],
    changes: &[u8],
    letters: &[u8],
    lengths: &[u32],
    edges: &[u32],
    paths: &[u32],
    counts: &[u32],
    out: &mut [u8],
) -> io::Result<()> {
    let n = number_of(base, changes, b'n');
    let m = number_of(base, changes, b'm');
    let k = number_of(base, changes, b'K');
    let answer = write_graph(n, m, k, letters, lengths, edges, paths, counts, out);
    tell(to, name, answer, out)
}

// Room for more than 65,536 bytes.
fn large_room() -> [u8; 65600] {
    [BYTE_BEFORE; 65600]
}

// Runs a case.
fn run(
    to: &mut impl Write,
    name: &[u8],
    base: &[u8],
    changes: &[u8],
    longer: u32,
) -> io::Result<()> {
    let letters = letters_of(base, changes, longer);
    let lengths = lengths_of(base, changes, longer);
    let edges = edges_of(base, changes, longer);
    let paths = paths_of(base, changes, longer);
    let counts = counts_of(base, changes);
    let mut out = large_room();
    let lent = size_of(base, changes, b'F', 1024);
    let room = size_of(base, changes, b'R', 65600);
    run_into(
        to,
        name,
        base,
        changes,
        &letters,
        &lengths[..lent],
        &edges,
        &paths,
        &counts,
        &mut out[..room],
    )
}

// Runs a case over the graph that it is of.
fn run_named(to: &mut impl Write, text: &[u8], name: &[u8], changes: &[u8]) -> io::Result<()> {
    let longer = changed(changes, b'B', 0);
    let base = if 0 < longer { 1 } else { 0 };
    run(to, name, part(text, base), changes, longer)
}

// Runs every case, each of which has two parts of the text.
fn run_all(to: &mut impl Write, text: &[u8]) -> io::Result<()> {
    let cases = parts(text) / 2;
    for k in 1..cases {
        run_named(to, text, part(text, 2 * k), part(text, 2 * k + 1))?;
    }
    Ok(())
}

fn main(rt: HostRuntime) -> io::Result<()> {
    let mut to = rt.stdout();
    run_all(
        &mut to,
        b"n=4;m=4;K=2;R=31;F=1024;s0=65;s1=67;s2=71;s3=84;s4=84;s5=67;s6=65;L0=2;L1=1;L2=2;L3=2;E0=1;E1=2;E2=1;E3=3;E4=2;E5=4;\
          E6=3;E7=4;P0=1;P1=2;P2=4;P1024=1;P1025=3;P1026=4;C0=3;C1=3;|\
          n=1024;m=1023;K=16;R=65600;F=1024;C0=1024;C1=1024;C2=1024;C3=1024;C4=1024;C5=1024;C6=1024;C7=1024;C8=1024;C9=1024;\
          C10=1024;C11=1024;C12=1024;C13=1024;C14=1024;C15=1024;|\
          G1||n 0|n=0;|n 5000|n=5000;|m 4294967295|m=4294967295;|K 17|K=17;|K 1|K=1;|m 3|m=3;|room 30|R=30;|room 33|R=33;|\
          1023 lengths|F=1023;|letter a|s1=97;|lengths 2 4294967295|L1=4294967295;|edge 3-5|E7=5;|edge 1-2 twice|E3=2;|\
          paths 1 2 4 and 1 2 4|P1025=2;|path 1 1 4|P1025=1;|path of 5|C1=5;|65536 bytes|B=203;|65537 bytes|B=204;|\
          1023 lengths, n 0|F=1023;n=0;|n 1025, letter a|n=1025;s0=97;|length 32766 of label 3, letter a in it|L2=32766;s3=97;|\
          length 0 of label 2, letter a in label 3|L1=0;s2=97;|letter a in label 1, length 0 of label 2|s1=97;L1=0;|\
          letter a in label 4, m 4097|s6=97;m=4097;|m 4097, edge 0-2|m=4097;E0=0;|m 4097, edge 1-2 twice|m=4097;E3=2;|\
          edge 0-3 after 1-2|E2=0;|edge 1-5, then 1-2|E1=5;E3=2;|edge 1-2 twice, then 5-4|E3=2;E4=5;|edge 3-5, K 0|E7=5;K=0;|\
          edge 3-5, K 17|E7=5;K=17;|edge 2-4 twice, K 0|E6=2;K=0;|edge 2-4 twice, K 17|E6=2;K=17;|K 17, path 0 2 4|K=17;P0=0;|\
          K 0, no vertex on a path|K=0;|path of 5, its first vertex 0|C0=5;P0=0;|path 1 0 4|P1=0;|path 1 5 4|P1=5;|\
          path 1 1 0|P1=1;P2=0;|path 1 4 0|P1=4;P2=0;|path 1 2 5, then a path of 0|P2=5;C1=0;|\
          path 1 2 2, then a path of 5|P2=2;C1=5;|path 1 2 3, then a path of 0|P2=3;C1=0;|path of 0, vertex 3 on no path|C1=0;|\
          path 1 5 4, vertex 3 on no path|P1025=5;|path 1 4, vertex 3 on no path|C1=2;P1025=4;|\
          vertex 1024 on no path, 65537 bytes|B=236;C0=1023;C1=1023;C2=1023;C3=1023;C4=1023;C5=1023;C6=1023;C7=1023;C8=1023;C9=1023;C10=1023;C11=1023;C12=1023;C13=1023;C14=1023;C15=1023;|\
          65537 bytes, room 0|B=204;R=0;|vertex 3 on no path, room 0|K=1;R=0;|1023 lengths, room 0|F=1023;R=0;|",
    )
}
