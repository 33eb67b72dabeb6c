// Cases of the reader and the writer of an anchor file, over the two files of document 01's listing, with the change that a case's name says.
// A line of the reader has the answer's number, file, place, r and N; the read and the anchors' numbers; how many places of the two buffers
// hold 0, and how many are as they were. A line of the writer has the answer's number, file, place and bytes; the bytes written, in hexadecimal
// digits; and how many bytes of the output are as they were. A text holds the files and the names of the cases, each ended by `|`: a case of the reader
// gives the numbers of its parts, from 0, and one of the writer is a name with its changes.
#![tactic(auto)]

ghost use Rattle.std.specs.Prelude.{◌≤◌};

use anchors_read::{AnchorsAnswer, read_anchors};
use anchors_write::{WrittenAnchors, write_anchors};
use changes::{change_entries, changed};
use std::io;
use std::io::Write;
use telling::{BYTE_BEFORE, NUMBER_BEFORE, count, say, say_bytes, say_numbers};
use texts::{part, parts, say_filled};

// Writes the first n bytes as letters.
fn say_letters(to: &mut impl Write, bytes: &[u8], n: usize) -> io::Result<()> {
    if 0 < n && n <= bytes.len() {
        say(to, b" ")?;
        say(to, &bytes[..n])?;
    }
    Ok(())
}

// ---- the reader

// Writes how many places of the reader's buffers hold 0, and how many are as they were.
fn say_places(to: &mut impl Write, letters: &[u8], anchors: &[u32]) -> io::Result<()> {
    say_filled(
        to,
        b" zero # # before # #\n",
        &[
            count(letters, 0),
            count(anchors, 0),
            count(letters, BYTE_BEFORE),
            count(anchors, NUMBER_BEFORE),
        ],
    )
}

// Writes the reader's answer.
fn say_answer(to: &mut impl Write, a: AnchorsAnswer) -> io::Result<()> {
    say_filled(
        to,
        b": # # # # #",
        &[
            a.number as u64,
            a.file as u64,
            a.place as u64,
            a.letters as u64,
            a.anchors as u64,
        ],
    )
}

// Writes a reader's line.
fn tell_read(
    to: &mut impl Write,
    name: &[u8],
    answer: AnchorsAnswer,
    letters: &[u8],
    anchors: &[u32],
) -> io::Result<()> {
    say(to, b"read ")?;
    say(to, name)?;
    say_answer(to, answer)?;
    say_letters(to, letters, answer.letters as usize)?;
    say_numbers(to, anchors, 0, 5 * (answer.anchors as usize))?;
    say_places(to, letters, anchors)
}

// Reads into lent buffers.
fn read_into(
    to: &mut impl Write,
    text: &[u8],
    name: usize,
    graph: usize,
    file: usize,
    letters: &mut [u8],
    anchors: &mut [u32],
) -> io::Result<()> {
    let answer = read_anchors(part(text, graph), part(text, file), letters, anchors);
    tell_read(to, part(text, name), answer, letters, anchors)
}

// Reads into buffers of L letters and of A numbers.
fn read_sized<const L: usize, const A: usize>(
    to: &mut impl Write,
    text: &[u8],
    name: usize,
    graph: usize,
    file: usize,
) -> io::Result<()>
    requires { (L ≤ 32769) × (A ≤ 10241) }
{
    let mut letters = [BYTE_BEFORE; L];
    let mut anchors = [NUMBER_BEFORE; A];
    read_into(to, text, name, graph, file, &mut letters, &mut anchors)
}

// Reads into buffers of full size.
fn read(
    to: &mut impl Write,
    text: &[u8],
    name: usize,
    graph: usize,
    file: usize,
) -> io::Result<()> {
    read_sized::<32768, 10240>(to, text, name, graph, file)
}

// The reader's cases. First the graph file, the same cut short and the anchor file; then names, and files after the names that have one.
fn read_all(to: &mut impl Write) -> io::Result<()> {
    let text: &[u8] =
        b"\x01\x04\x02\x41\x43\x01\x47\x02\x54\x54\x02\x43\x41\x04\x01\x02\x01\x03\x02\x04\x03\x04\x02\x03\x01\x02\x04\x03\x01\x03\x04|\
          \x01\x04\x02\x41\x43\x01\x47\x02\x54\x54\x02\x43\x41\x04\x01\x02\x01\x03\x02\x04\x03\x04\x02\x03\x01\x02\x04\x03\x01\x03|\
          \x02\x06\x41\x43\x54\x54\x43\x41\x03\x01\x01\x01\x02\x02\x03\x01\x03\x02\x02\x04\x01\x05\x02\x02|\
          G1|\
          no anchors|\x02\x06\x41\x43\x54\x54\x43\x41\x00|\
          one byte less|\x02\x06\x41\x43\x54\x54\x43\x41\x03\x01\x01\x01\x02\x02\x03\x01\x03\x02\x02\x04\x01\x05\x02|\
          one byte more|\x02\x06\x41\x43\x54\x54\x43\x41\x03\x01\x01\x01\x02\x02\x03\x01\x03\x02\x02\x04\x01\x05\x02\x02\x00|\
          weight 0|\x02\x06\x41\x43\x54\x54\x43\x41\x03\x01\x01\x01\x02\x02\x03\x01\x03\x02\x00\x04\x01\x05\x02\x02|\
          c 4|\x02\x06\x41\x43\x54\x54\x43\x41\x03\x01\x01\x01\x02\x02\x03\x01\x04\x02\x02\x04\x01\x05\x02\x02|\
          a cut graph|\x01|\
          with larger buffers|with 32767 letters|with 10239 anchors|a cut graph with 32767 letters|";
    read(to, text, 3, 0, 2)?;
    read(to, text, 4, 0, 5)?;
    read(to, text, 6, 0, 7)?;
    read(to, text, 8, 0, 9)?;
    read(to, text, 10, 0, 11)?;
    read(to, text, 12, 0, 13)?;
    read(to, text, 14, 1, 15)?;
    read_sized::<32769, 10241>(to, text, 16, 0, 2)?;
    read_sized::<32767, 10240>(to, text, 17, 0, 2)?;
    read_sized::<32768, 10239>(to, text, 18, 0, 2)?;
    read_sized::<32767, 10240>(to, text, 19, 1, 2)
}

// ---- the writer

// Writes the writer's answer.
fn say_written(to: &mut impl Write, a: WrittenAnchors) -> io::Result<()> {
    say_filled(
        to,
        b": # # # #",
        &[
            a.number as u64,
            a.file as u64,
            a.place as u64,
            a.bytes as u64,
        ],
    )
}

// Writes a writer's line.
fn tell_write(
    to: &mut impl Write,
    name: &[u8],
    answer: WrittenAnchors,
    out: &[u8],
) -> io::Result<()> {
    say(to, b"write ")?;
    say(to, name)?;
    say_written(to, answer)?;
    say_bytes(to, out, answer.bytes as usize)?;
    say_filled(to, b" before #\n", &[count(out, BYTE_BEFORE)])
}

// Calls the writer with a lent output.
fn write_into(
    to: &mut impl Write,
    text: &[u8],
    name: &[u8],
    changes: &[u8],
    letters: &[u8],
    anchors: &[u32],
    out: &mut [u8],
) -> io::Result<()> {
    let r = changed(changes, b'r', 6);
    let n = changed(changes, b'N', 3);
    let graph = changed(changes, b'g', 0) as usize;
    let answer = write_anchors(r, n, letters, anchors, part(text, graph), out);
    tell_write(to, name, answer, out)
}

// A number of a case as a length, at most so much.
fn size_of(changes: &[u8], list: u8, most: usize, x: u32) -> usize
    ensures { result ≤ most }
{
    (changed(changes, list, x) as usize).min(most)
}

// Buffers of full size.
fn letter_room() -> [u8; 32768] {
    [BYTE_BEFORE; 32768]
}

fn anchor_room() -> [u32; 10240] {
    [NUMBER_BEFORE; 10240]
}

// The listing's read and anchors, as the reader makes them, with a case's changes.
fn letters_of(text: &[u8], changes: &[u8]) -> [u8; 32768] {
    let mut letters = letter_room();
    let mut anchors = anchor_room();
    read_anchors(part(text, 0), part(text, 2), &mut letters, &mut anchors);
    change_entries(changes, b's', &mut letters);
    letters
}

fn anchors_of(text: &[u8], changes: &[u8]) -> [u32; 10240] {
    let mut letters = letter_room();
    let mut anchors = anchor_room();
    read_anchors(part(text, 0), part(text, 2), &mut letters, &mut anchors);
    change_entries(changes, b'a', &mut anchors);
    anchors
}

// Runs a case, into 24 bytes, which is what the listing's anchors take, or into as many as it says.
fn write(to: &mut impl Write, text: &[u8], name: &[u8], changes: &[u8]) -> io::Result<()> {
    let letters = letters_of(text, changes);
    let anchors = anchors_of(text, changes);
    let few_letters = size_of(changes, b'F', 32768, 32768);
    let few_anchors = size_of(changes, b'f', 10240, 10240);
    let mut out = [BYTE_BEFORE; 26];
    let room = size_of(changes, b'R', 26, 24);
    write_into(
        to,
        text,
        name,
        changes,
        &letters[..few_letters],
        &anchors[..few_anchors],
        &mut out[..room],
    )
}

// Runs every case of the writer, each of which has two parts of the text.
fn write_all(to: &mut impl Write, text: &[u8]) -> io::Result<()> {
    let cases = parts(text) / 2;
    for k in 2..cases {
        write(to, text, part(text, 2 * k), part(text, 2 * k + 1))?;
    }
    Ok(())
}

// The writer's text has the graph file, the same cut short, the anchor file and an empty part, and then each case's name and changes (crate changes).
// The lists are r and N; g, which graph file; R, the output's room; F and f, how many letters and numbers of anchors are lent; the letters s and
// the anchors a. From `from 10239 anchors, r 0` on each case has two faults, of rules that follow one another: the first in document 01's order
// is the answer.
fn main(rt: HostRuntime) -> io::Result<()> {
    let mut to = rt.stdout();
    read_all(&mut to)?;
    write_all(
        &mut to,
        b"\x01\x04\x02\x41\x43\x01\x47\x02\x54\x54\x02\x43\x41\x04\x01\x02\x01\x03\x02\x04\x03\x04\x02\x03\x01\x02\x04\x03\x01\x03\x04|\
          \x01\x04\x02\x41\x43\x01\x47\x02\x54\x54\x02\x43\x41\x04\x01\x02\x01\x03\x02\x04\x03\x04\x02\x03\x01\x02\x04\x03\x01\x03|\
          \x02\x06\x41\x43\x54\x54\x43\x41\x03\x01\x01\x01\x02\x02\x03\x01\x03\x02\x02\x04\x01\x05\x02\x02||\
          G1||r 0|r=0;|r 7|r=7;|r 32769|r=32769;|r 5|r=5;|N 0|N=0;|N 4|N=4;|N 2049|N=2049;|N 4294967295|N=4294967295;|\
          a cut graph|g=1;|a cut graph and r 0|g=1;r=0;|from 32767 letters|F=32767;|from 10239 anchors|f=10239;|\
          a cut graph, from 10239 anchors|g=1;f=10239;|into 23 bytes|R=23;|into 26 bytes|R=26;|v 0|a=0;|v 5|a=5;|x 0|a1=0;|\
          x 4294967295|a1=4294967295;|c 0|a2=0;|c 4294967295|a2=4294967295;|c 2|a2=2;|length 0|a3=0;|length 3|a3=3;|\
          length 4294967295|a3=4294967295;|weight 0|a4=0;|weight 65536|a4=65536;|weight 65535|a4=65535;|\
          weight 0 and x 0|a4=0;a1=0;|weight 0 and c 2|a4=0;a2=2;|v 1 and c 1 of the second|a5=1;a7=1;|v 1 of the second|a5=1;|\
          v 3 and c 3 of the third|a10=3;a12=3;|letter N|s5=78;|letter N and N 2049|s5=78;N=2049;|letter G|s5=71;|\
          from 10239 anchors, r 0|f=10239;r=0;|a cut graph, letter N|g=1;s5=78;|r 32769, letter N|r=32769;s=78;|\
          letter N, v 0|s5=78;a=0;|N 2049, v 0|N=2049;a=0;|v 0, x 0|a=0;a1=0;|v 5, length 0|a=5;a3=0;|v 0, weight 0|a=0;a4=0;|\
          v 0 of the second, below the first|a5=0;|v 1 and x 0 of the second, below the first|a5=1;a6=0;|\
          the second as the first, with weight 0|a5=1;a7=1;a9=0;|v 3 and c 2 of the third, below the second|a10=3;a12=2;|\
          length 0, v 0 of the second|a3=0;a5=0;|weight 0, v 0 of the second|a4=0;a5=0;|c 2, v 0 of the second|a2=2;a5=0;|\
          the second as the first, v 0 of the third|a5=1;a7=1;a10=0;|the third as the second, into 0 bytes|a10=3;a12=3;R=0;|\
          N 2049, into 0 bytes|N=2049;R=0;|a cut graph, into 0 bytes|g=1;R=0;|from 10239 anchors, into 0 bytes|f=10239;R=0;|",
    )
}
