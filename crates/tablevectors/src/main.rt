// Cases of document 01's chapter "Checked by hand" through the entry for the tables: reach, distance and closed walks. (Numbers, graph files and the
// letters of an anchor are those of the program `vectors`, chains those of `chainvectors`.) The files' bytes are made by hand from document 01's
// words, and so is what must be written: the answer, then a row for each vertex. A lent table's places hold something else before each call: after
// `zero` stands how many of them hold 0, after `before` how many are as they were.
#![tactic(auto)]

use std::io;
use std::io::Write;
use tables::{TablesAnswer, tables};
use telling::{NUMBER_BEFORE, count, say, say_numbers};
use texts::{part, parts, say_filled};

// Writes the answer.
fn say_answer(to: &mut impl Write, answer: TablesAnswer) -> io::Result<()> {
    say_filled(
        to,
        b"number # file # place # n # K # rounds # #",
        &[
            answer.number as u64,
            answer.file as u64,
            answer.place as u64,
            answer.vertices as u64,
            answer.paths as u64,
            answer.reachrounds as u64,
            answer.distancerounds as u64,
        ],
    )
}

// The three tables of a graph file.
#[derive(Clone, Copy)]
struct Tables<'a> {
    reach: &'a [u32],
    distance: &'a [u32],
    closed: &'a [u32],
}

// Writes how many places of each table hold 0, and how many are as they were.
fn say_places(to: &mut impl Write, made: Tables<'_>) -> io::Result<()> {
    say_filled(
        to,
        b" zero # # # before # # #\n",
        &[
            count(made.reach, 0),
            count(made.distance, 0),
            count(made.closed, 0),
            count(made.reach, NUMBER_BEFORE),
            count(made.distance, NUMBER_BEFORE),
            count(made.closed, NUMBER_BEFORE),
        ],
    )
}

// Writes the row of one vertex, k cells of each table, and its closed walk.
fn say_row(to: &mut impl Write, made: Tables<'_>, k: u32, v: u32) -> io::Result<()> {
    let words: &[u8] = b"reach| distance| closed walk|\n|";
    let row = v as usize;
    say(to, part(words, 0))?;
    say_numbers(to, made.reach, 16 * row, k as usize)?;
    say(to, part(words, 1))?;
    say_numbers(to, made.distance, 16 * row, k as usize)?;
    say(to, part(words, 2))?;
    say_numbers(to, made.closed, row, 1)?;
    say(to, part(words, 3))
}

// Writes the rows of n vertices.
fn say_rows(to: &mut impl Write, made: Tables<'_>, n: u32, k: u32) -> io::Result<()> {
    for v in 0..n {
        say_row(to, made, k, v)?;
    }
    Ok(())
}

// Writes the answer, and what the tables hold.
fn tell(to: &mut impl Write, answer: TablesAnswer, made: Tables<'_>) -> io::Result<()> {
    say_answer(to, answer)?;
    say_places(to, made)?;
    say_rows(to, made, answer.vertices, answer.paths)
}

// Makes the tables of a file of a text, and writes them.
fn table_case(to: &mut impl Write, text: &[u8], name: usize, file: usize) -> io::Result<()> {
    let mut reach = [NUMBER_BEFORE; 16384];
    let mut distance = [NUMBER_BEFORE; 16384];
    let mut closed = [NUMBER_BEFORE; 1024];
    say(to, part(text, name))?;
    let answer = tables(part(text, file), &mut reach, &mut distance, &mut closed);
    tell(
        to,
        answer,
        Tables {
            reach: &reach,
            distance: &distance,
            closed: &closed,
        },
    )
}

// The cases of a text, after its heading: a name and a file for each, both ended by `|`.
fn cases_of(to: &mut impl Write, text: &[u8]) -> io::Result<()> {
    say(to, part(text, 0))?;
    for k in 0..parts(text) / 2 {
        table_case(to, text, 2 * k + 1, 2 * k + 2)?;
    }
    Ok(())
}

// The tables of each graph, and a refused file. (G2 has labels A, CC, G; edges 1-2, 2-3, 3-2; one path 1 2 3.)
fn main(rt: HostRuntime) -> io::Result<()> {
    let mut to = rt.stdout();
    cases_of(
        &mut to,
        b"tables\n|\
          G1: |\x01\x04\x02\x41\x43\x01\x47\x02\x54\x54\x02\x43\x41\x04\x01\x02\x01\x03\x02\x04\x03\x04\x02\x03\x01\x02\x04\x03\x01\x03\x04|\
          G2: |\x01\x03\x01\x41\x02\x43\x43\x01\x47\x03\x01\x02\x02\x03\x03\x02\x01\x03\x01\x02\x03|\
          one vertex A: |\x01\x01\x01\x41\x00\x01\x01\x01|\
          one vertex A with an edge to itself: |\x01\x01\x01\x41\x01\x01\x01\x01\x01\x01|\
          K 0: |\x01\x01\x01\x41\x00\x00|",
    )
}
