// Cases of document 01's chapter "Checked by hand", and of the listing's files, through the entries: chains by the sweep and by the plain pass.
// (Numbers, graph files and the letters of an anchor are those of the program `vectors`, tables those of `tablevectors`.) The files' bytes are made
// by hand from document 01's words, and so is what must be written. A lent buffer's places hold something else before each call: after `zero`
// stands how many of them hold 0, after `before` how many are as they were. One text holds the files and the names of the cases, each ended by `|`: a
// case gives the numbers of its parts, from 0. Parts 0 and 1 are the words for the sweep and for the plain pass.
#![tactic(auto)]

ghost use Rattle.std.specs.Prelude.{◌≤◌};

use anchors_read::read_anchors;
use placing::ChainAnswer;
use plain_placing::plain;
use std::io;
use std::io::Write;
use sweep_placing::sweep;
use telling::{BYTE_BEFORE, NUMBER_BEFORE, count, say, say_numbers};
use texts::{part, say_filled};

// A way to place anchors. (An enum and no closure: a way has its word beside its entry.)
#[derive(Clone, Copy)]
enum Way {
    Sweep,
    Plain,
}

impl Way {
    // Calls the way's entry.
    fn run(self, graph: &[u8], file: &[u8], scores: &mut [u32], chain: &mut [u32]) -> ChainAnswer {
        match self {
            Way::Sweep => sweep(graph, file, scores, chain),
            Way::Plain => plain(graph, file, scores, chain),
        }
    }

    // Which part of a text has the way's word.
    fn word(self) -> usize {
        match self {
            Way::Sweep => 0,
            Way::Plain => 1,
        }
    }
}

// Writes how many places of the two buffers hold 0, and how many are as they were.
fn say_places(to: &mut impl Write, scores: &[u32], chain: &[u32]) -> io::Result<()> {
    say_filled(
        to,
        b" zero # # before # #\n",
        &[
            count(scores, 0),
            count(chain, 0),
            count(scores, NUMBER_BEFORE),
            count(chain, NUMBER_BEFORE),
        ],
    )
}

// ---- chains: the lines of an accepted pair of files are the listing's, and a line more: the scores of all anchors, and the places of the buffers

// The number at a place, or 0 past the end.
fn at_place(numbers: &[u32], at: usize) -> u32 {
    numbers.get(at).copied().unwrap_or(0)
}

// The last of `length` places from a first one on, or 0 for none.
fn last_of(first: u32, length: u32) -> u64 {
    if 0 < length {
        return first as u64 + length as u64 - 1;
    }
    0
}

// Writes an anchor's line of the listing: number v x y c d and the score.
fn say_anchor(
    to: &mut impl Write,
    number: u32,
    v: u32,
    x: u32,
    c: u32,
    length: u32,
    score: u32,
) -> io::Result<()> {
    say_filled(
        to,
        b"# # # # # # #\n",
        &[
            number as u64,
            v as u64,
            x as u64,
            last_of(x, length),
            c as u64,
            last_of(c, length),
            score as u64,
        ],
    )
}

// The same from the anchors' numbers and the scores.
fn list_anchor(
    to: &mut impl Write,
    anchors: &[u32],
    scores: &[u32],
    number: u32,
) -> io::Result<()> {
    if 0 < number {
        let one = (number - 1) as usize;
        let v = at_place(anchors, 5 * one);
        let x = at_place(anchors, 5 * one + 1);
        let c = at_place(anchors, 5 * one + 2);
        let length = at_place(anchors, 5 * one + 3);
        say_anchor(to, number, v, x, c, length, at_place(scores, one))?;
    }
    Ok(())
}

// Writes the lines of the chain's anchors.
fn list_chain(
    to: &mut impl Write,
    anchors: &[u32],
    scores: &[u32],
    chain: &[u32],
    length: u32,
) -> io::Result<()> {
    for number in &chain[..(length as usize).min(chain.len())] {
        list_anchor(to, anchors, scores, *number)?;
    }
    Ok(())
}

// Writes the listing's first line.
fn say_first(to: &mut impl Write, answer: ChainAnswer) -> io::Result<()> {
    say_filled(
        to,
        b"anchors # score # rounds #\n",
        &[
            answer.anchors as u64,
            answer.score as u64,
            answer.rounds as u64,
        ],
    )
}

// Writes what else the answer holds.
fn say_rest(to: &mut impl Write, answer: ChainAnswer) -> io::Result<()> {
    say_filled(
        to,
        b"number # file # place # length # scores",
        &[
            answer.number as u64,
            answer.file as u64,
            answer.place as u64,
            answer.length as u64,
        ],
    )
}

// Writes the lines of an accepted case.
fn tell(
    to: &mut impl Write,
    answer: ChainAnswer,
    anchors: &[u32],
    scores: &[u32],
    chain: &[u32],
) -> io::Result<()> {
    say_first(to, answer)?;
    list_chain(to, anchors, scores, chain, answer.length)?;
    say_rest(to, answer)?;
    say_numbers(to, scores, 0, answer.anchors as usize)?;
    say_places(to, scores, chain)
}

// A way into lent buffers.
fn chain_into(
    to: &mut impl Write,
    text: &[u8],
    way: Way,
    graph: usize,
    file: usize,
    anchors: &[u32],
    scores: &mut [u32],
    chain: &mut [u32],
) -> io::Result<()> {
    say(to, part(text, way.word()))?;
    let answer = way.run(part(text, graph), part(text, file), scores, chain);
    tell(to, answer, anchors, scores, chain)
}

// A way into buffers of N places.
fn sized_way<const N: usize>(
    to: &mut impl Write,
    text: &[u8],
    way: Way,
    graph: usize,
    file: usize,
    anchors: &[u32],
) -> io::Result<()>
    requires { N ≤ 2049 }
{
    let mut scores = [NUMBER_BEFORE; N];
    let mut chain = [NUMBER_BEFORE; N];
    chain_into(to, text, way, graph, file, anchors, &mut scores, &mut chain)
}

// A case: its anchors, then its chains by both ways, into buffers of N places.
fn chain_case<const N: usize>(
    to: &mut impl Write,
    text: &[u8],
    name: usize,
    graph: usize,
    file: usize,
) -> io::Result<()>
    requires { N ≤ 2049 }
{
    let mut letters = [BYTE_BEFORE; 32768];
    let mut anchors = [NUMBER_BEFORE; 10240];
    read_anchors(
        part(text, graph),
        part(text, file),
        &mut letters,
        &mut anchors,
    );
    say(to, part(text, name))?;
    sized_way::<N>(to, text, Way::Sweep, graph, file, &anchors)?;
    sized_way::<N>(to, text, Way::Plain, graph, file, &anchors)
}

// The chains of a text's cases, in buffers of full size, or with a place more.
fn chain_cases(to: &mut impl Write, text: &[u8]) -> io::Result<()> {
    chain_case::<2048>(to, text, 6, 2, 7)?;
    chain_case::<2048>(to, text, 8, 2, 9)?;
    chain_case::<2048>(to, text, 10, 2, 11)?;
    chain_case::<2048>(to, text, 12, 2, 13)?;
    chain_case::<2049>(to, text, 14, 2, 7)?;
    chain_case::<2048>(to, text, 15, 3, 16)?;
    chain_case::<2048>(to, text, 17, 3, 18)?;
    chain_case::<2048>(to, text, 19, 4, 20)?;
    chain_case::<2048>(to, text, 21, 5, 20)
}

// Graph files 2 to 5: G1; G2, with labels A, CC, G, edges 1-2, 2-3, 3-2 and one path 1 2 3; one vertex A; the same with an edge to itself. Then names,
// each with its anchor file, where it has one of its own. G1's read is ACTTCA, with three anchors, the first and the third, the same with weights 1, and
// none. G2's anchors are 2 1 1 2 2; 2 1 4 2 2; 3 1 3 1 1 on CCGCC, and 1 1 1 1 1; 2 1 2 2 2 on ACC. A's are 1 1 1 1 1; 1 1 2 1 1; 1 1 3 1 1 on AAA.
fn chains(to: &mut impl Write) -> io::Result<()> {
    say(to, b"chains\n")?;
    chain_cases(
        to,
        b"sweep\n|plain\n|\
          \x01\x04\x02\x41\x43\x01\x47\x02\x54\x54\x02\x43\x41\x04\x01\x02\x01\x03\x02\x04\x03\x04\x02\x03\x01\x02\x04\x03\x01\x03\x04|\
          \x01\x03\x01\x41\x02\x43\x43\x01\x47\x03\x01\x02\x02\x03\x03\x02\x01\x03\x01\x02\x03|\
          \x01\x01\x01\x41\x00\x01\x01\x01|\
          \x01\x01\x01\x41\x01\x01\x01\x01\x01\x01|\
          G1\n|\
          \x02\x06\x41\x43\x54\x54\x43\x41\x03\x01\x01\x01\x02\x02\x03\x01\x03\x02\x02\x04\x01\x05\x02\x02|\
          G1, first and third anchor\n|\
          \x02\x06\x41\x43\x54\x54\x43\x41\x02\x01\x01\x01\x02\x02\x04\x01\x05\x02\x02|\
          G1, first and third anchor with weights 1\n|\
          \x02\x06\x41\x43\x54\x54\x43\x41\x02\x01\x01\x01\x02\x01\x04\x01\x05\x02\x01|\
          G1, no anchors\n|\
          \x02\x06\x41\x43\x54\x54\x43\x41\x00|\
          G1, buffers of 2049\n|\
          G2, CCGCC\n|\
          \x02\x05\x43\x43\x47\x43\x43\x03\x02\x01\x01\x02\x02\x02\x01\x04\x02\x02\x03\x01\x03\x01\x01|\
          G2, ACC\n|\
          \x02\x03\x41\x43\x43\x02\x01\x01\x01\x01\x01\x02\x01\x02\x02\x02|\
          one vertex A, AAA\n|\
          \x02\x03\x41\x41\x41\x03\x01\x01\x01\x01\x01\x01\x01\x02\x01\x01\x01\x01\x03\x01\x01|\
          one vertex A with an edge to itself, AAA\n|",
    )
}

// ---- refused calls: buffers below full size, and files with a fault. The buffers are left alone

// Writes the line of a refused call.
fn tell_refusal(
    to: &mut impl Write,
    answer: ChainAnswer,
    scores: &[u32],
    chain: &[u32],
) -> io::Result<()> {
    say_filled(
        to,
        b" number # file # place # anchors # score # rounds # length #",
        &[
            answer.number as u64,
            answer.file as u64,
            answer.place as u64,
            answer.anchors as u64,
            answer.score as u64,
            answer.rounds as u64,
            answer.length as u64,
        ],
    )?;
    say_places(to, scores, chain)
}

// A refused call of a way into lent buffers.
fn refused_way(
    to: &mut impl Write,
    text: &[u8],
    way: Way,
    name: usize,
    graph: usize,
    file: usize,
    scores: &mut [u32],
    chain: &mut [u32],
) -> io::Result<()> {
    say(to, part(text, name))?;
    say(to, part(text, way.word()))?;
    let answer = way.run(part(text, graph), part(text, file), scores, chain);
    tell_refusal(to, answer, scores, chain)
}

// The one and then the other, into the same lent buffers.
fn refused_into(
    to: &mut impl Write,
    text: &[u8],
    name: usize,
    graph: usize,
    file: usize,
    scores: &mut [u32],
    chain: &mut [u32],
) -> io::Result<()> {
    refused_way(to, text, Way::Sweep, name, graph, file, scores, chain)?;
    refused_way(to, text, Way::Plain, name, graph, file, scores, chain)
}

// The same in buffers of S scores and of C places for a chain.
fn refused_case<const S: usize, const C: usize>(
    to: &mut impl Write,
    text: &[u8],
    name: usize,
    graph: usize,
    file: usize,
) -> io::Result<()>
    requires { (S ≤ 2048) × (C ≤ 2048) }
{
    let mut scores = [NUMBER_BEFORE; S];
    let mut chain = [NUMBER_BEFORE; C];
    refused_into(to, text, name, graph, file, &mut scores, &mut chain)
}

// Buffers of size 0, and one short of full size; with a graph file at fault the small buffer is still the answer.
fn small_rooms(to: &mut impl Write, text: &[u8]) -> io::Result<()> {
    refused_case::<0, 2048>(to, text, 5, 2, 3)?;
    refused_case::<2048, 0>(to, text, 6, 2, 3)?;
    refused_case::<2047, 2048>(to, text, 7, 2, 3)?;
    refused_case::<2048, 2047>(to, text, 8, 2, 3)?;
    refused_case::<2047, 2048>(to, text, 9, 4, 3)
}

// Files with a fault, in buffers of full size.
fn faults(to: &mut impl Write, text: &[u8]) -> io::Result<()> {
    refused_case::<2048, 2048>(to, text, 10, 4, 3)?;
    refused_case::<2048, 2048>(to, text, 11, 12, 3)?;
    refused_case::<2048, 2048>(to, text, 13, 14, 3)?;
    refused_case::<2048, 2048>(to, text, 15, 2, 4)?;
    refused_case::<2048, 2048>(to, text, 16, 2, 17)?;
    refused_case::<2048, 2048>(to, text, 18, 19, 20)
}

// The refused calls of a text's cases.
fn refused_cases(to: &mut impl Write, text: &[u8]) -> io::Result<()> {
    small_rooms(to, text)?;
    faults(to, text)
}

// The listing's files are parts 2 and 3, and the empty file part 4. Then names, each with its files, where it has any of its own.
fn refused(to: &mut impl Write) -> io::Result<()> {
    say(to, b"refused\n")?;
    refused_cases(
        to,
        b": sweep|: plain|\
          \x01\x04\x02\x41\x43\x01\x47\x02\x54\x54\x02\x43\x41\x04\x01\x02\x01\x03\x02\x04\x03\x04\x02\x03\x01\x02\x04\x03\x01\x03\x04|\
          \x02\x06\x41\x43\x54\x54\x43\x41\x03\x01\x01\x01\x02\x02\x03\x01\x03\x02\x02\x04\x01\x05\x02\x02|\
          |\
          no scores|no chain|\
          2047 scores|2047 of the chain|2047 scores and an empty graph file|\
          an empty graph file|\
          a graph file with one byte less|\x01\x01\x01\x41\x00\x01\x01|\
          a vertex on no path|\x01\x02\x01\x41\x01\x43\x00\x01\x01\x01|\
          an empty anchor file|\
          the third anchor's weight 0|\
          \x02\x06\x41\x43\x54\x54\x43\x41\x03\x01\x01\x01\x02\x02\x03\x01\x03\x02\x02\x04\x01\x05\x02\x00|\
          a fault in both files|\x01\x01\x01\x41\x00\x00|\x80\x00|",
    )
}

fn main(rt: HostRuntime) -> io::Result<()> {
    let mut to = rt.stdout();
    chains(&mut to)?;
    refused(&mut to)
}
