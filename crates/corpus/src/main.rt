// Answers the cases of a corpus, which standard input holds as records; then one byte 0:
//
//     1 byte    kind: 1 both files and all results, 2 the graph file only
//     4 bytes   the length of the graph file, lowest byte first
//     so many   the graph file
//     4 bytes   the length of the anchor file
//     so many   the anchor file
//
// and writes one line for each. A refusal:
//
//     refused NUMBER file FILE place PLACE
//
// else for kind 2 the first seven numbers, and for kind 1 all thirteen:
//
//     n letters m K reach_rounds distance_rounds TABLES r N score rounds chain_length CHAIN
//
// TABLES is the digest of reach, distance and closed walks, CHAIN that of the scores and the chain, each in buffers of full size. Where two
// entries do not say the same of a case, the line says so.
#![tactic(auto)]

mod compare; // compare.rt: whether two answers, or two lists of numbers, are the same

ghost use Rattle.std.specs.Prelude.{◌≡◌, true};
ghost use Rattle.graph.specs.Entries.{read_reply};
ghost use Rattle.graph_read.specs.Answer.{answer_of as graph_answer};
ghost use Rattle.anchors.specs.AnchorEntries.{read_anchors_reply};
ghost use Rattle.anchors_read.specs.Answer.{answer_of as anchors_answer};
ghost use Rattle.corpus.specs.Results.{fresh_graph, fresh_anchors, TablesDigest, SameButRounds, Audited, ChainDigest};

use anchors_read::{AnchorsAnswer, read_anchors};
use caseinput::digest::DIGEST_START;
use caseinput::entry::put_all;
use caseinput::input::{read_file, read_kind};
use compare::{Verdict, same_numbers};
use graph_read::{GraphAnswer, read_graph};
use placing::ChainAnswer;
use plain_placing::plain;
use std::io;
use std::io::{Read, Write};
use sweep_placing::sweep;
use tables::TablesAnswer;
use wire::sizes::{
    FULL_ANCHORS, FULL_CHAIN, FULL_CLOSED, FULL_COUNTS, FULL_EDGES, FULL_LENGTHS, FULL_LETTERS,
    FULL_PATHS, FULL_SCORES, FULL_TABLE,
};
use wire_lent::zeros;

// What the entry for tables answered, and the digest of the tables.
#[derive(Clone, Copy)]
struct Tabled {
    answer: TablesAnswer,
    digest: u64,
}

// What the sweep answered, the digest of its scores and chain, and whether the plain pass gave the same.
#[derive(Clone, Copy)]
struct Placed {
    answer: ChainAnswer,
    digest: u64,
    agree: bool,
}

// What a record has: both files and all results, or the graph file only.
#[derive(Clone, Copy)]
enum Kind {
    Both,
    Graph,
}

// A record's kind; 0 stands after the last record.
fn kind_of(b: u8) -> Option<Kind> {
    match b {
        0 => None,
        1 => Some(Kind::Both),
        _ => Some(Kind::Graph),
    }
}

// Writes the line of a refusal.
fn say_refusal(to: &mut impl Write, v: Verdict) -> io::Result<()> {
    writeln!(to, "refused {} file {} place {}", v.number, v.file, v.place)
}

// Reads a graph file.
fn graph_of(graph: &[u8]) -> GraphAnswer
    ensures { result ≡ graph_answer (read_reply graph.now fresh_graph) }
{
    let mut letters: [u8; FULL_LETTERS] = zeros();
    let mut lengths: [u32; FULL_LENGTHS] = zeros();
    let mut edges: [u32; FULL_EDGES] = zeros();
    let mut paths: [u32; FULL_PATHS] = zeros();
    let mut counts: [u32; FULL_COUNTS] = zeros();
    read_graph(
        graph,
        &mut letters,
        &mut lengths,
        &mut edges,
        &mut paths,
        &mut counts,
    )
}

// Makes the tables of a graph file.
fn tables_of(graph: &[u8]) -> Tabled
    ensures { TablesDigest graph.now result.answer result.digest }
{
    let mut reach: [u32; FULL_TABLE] = zeros();
    let mut distance: [u32; FULL_TABLE] = zeros();
    let mut closed: [u32; FULL_CLOSED] = zeros();
    let answer = tables::tables(graph, &mut reach, &mut distance, &mut closed);
    let a = put_all(DIGEST_START, &reach);
    let b = put_all(a, &distance);
    let c = put_all(b, &closed);
    Tabled {
        answer: answer,
        digest: c,
    }
}

// Reads an anchor file over a graph file.
fn anchors_of(graph: &[u8], file: &[u8]) -> AnchorsAnswer
    ensures { result ≡ anchors_answer (read_anchors_reply graph.now file.now fresh_anchors) }
{
    let mut letters: [u8; FULL_LETTERS] = zeros();
    let mut anchors: [u32; FULL_ANCHORS] = zeros();
    read_anchors(graph, file, &mut letters, &mut anchors)
}

// Whether the sweep and the plain pass answered the same, but for the rounds.
fn same_placing(a: ChainAnswer, b: ChainAnswer) -> bool
    ensures { result ≡ true → SameButRounds a b }
{
    a.anchors == b.anchors
        && a.score == b.score
        && a.length == b.length
        && Verdict::from(a) == Verdict::from(b)
}

// Makes the plain pass, and compares it with what the sweep gave.
fn plain_agrees(
    graph: &[u8],
    file: &[u8],
    swept: ChainAnswer,
    scores: &[u32],
    chain: &[u32],
) -> bool
    ensures { result ≡ true → Audited graph.now file.now swept (record { scores = scores.now; chain = chain.now }) }
{
    let mut own_scores: [u32; FULL_SCORES] = zeros();
    let mut own_chain: [u32; FULL_CHAIN] = zeros();
    let answer = plain(graph, file, &mut own_scores, &mut own_chain);
    same_placing(swept, answer)
        && same_numbers(scores, &own_scores)
        && same_numbers(chain, &own_chain)
}

// Places the anchors by the sweep, and again by the plain pass.
fn place_twice(graph: &[u8], file: &[u8]) -> Placed
    ensures { ChainDigest graph.now file.now result.answer result.digest result.agree }
{
    let mut scores: [u32; FULL_SCORES] = zeros();
    let mut chain: [u32; FULL_CHAIN] = zeros();
    let answer = sweep(graph, file, &mut scores, &mut chain);
    let agree = plain_agrees(graph, file, answer, &scores, &chain);
    let a = put_all(DIGEST_START, &scores);
    let b = put_all(a, &chain);
    Placed {
        answer: answer,
        digest: b,
        agree: agree,
    }
}

// Whether the entry for tables answered as the graph file's reader.
fn tables_agree(g: GraphAnswer, t: TablesAnswer) -> bool {
    g.vertices == t.vertices && g.paths == t.paths && Verdict::from(g) == Verdict::from(t)
}

// Whether the sweep answered as the anchor file's reader.
fn sweep_agrees(a: AnchorsAnswer, p: ChainAnswer) -> bool {
    a.anchors == p.anchors && Verdict::from(a) == Verdict::from(p)
}

// Writes the first seven numbers of a line.
fn say_graph(to: &mut impl Write, g: GraphAnswer, t: TablesAnswer, digest: u64) -> io::Result<()> {
    write!(
        to,
        "{} {} {} {} {} {} {digest}",
        g.vertices, g.letters, g.edges, g.paths, t.reachrounds, t.distancerounds
    )
}

// Writes the other six numbers.
fn say_chain(to: &mut impl Write, a: AnchorsAnswer, p: ChainAnswer, digest: u64) -> io::Result<()> {
    writeln!(
        to,
        " {} {} {} {} {} {digest}",
        a.letters, p.anchors, p.score, p.rounds, p.length
    )
}

// Answers a graph file, without the line's end, where the line may go on: true for an accepted one.
fn answer_graph(to: &mut impl Write, graph: &[u8]) -> io::Result<bool> {
    let g = graph_of(graph);
    let t = tables_of(graph);
    if !tables_agree(g, t.answer) {
        to.write_all(b"the tables' answer differs\n")?;
        return Ok(false);
    }
    if g.number != 0 {
        say_refusal(to, Verdict::from(g))?;
        return Ok(false);
    }
    say_graph(to, g, t.answer, t.digest)?;
    Ok(true)
}

// Answers both files.
fn answer_both(to: &mut impl Write, graph: &[u8], file: &[u8]) -> io::Result<()> {
    let a = anchors_of(graph, file);
    let p = place_twice(graph, file);
    if !p.agree {
        return to.write_all(b"the plain pass differs\n");
    }
    if !sweep_agrees(a, p.answer) {
        return to.write_all(b"the sweep's answer differs\n");
    }
    if a.number != 0 {
        return say_refusal(to, Verdict::from(a));
    }
    if answer_graph(to, graph)? {
        say_chain(to, a, p.answer, p.digest)?;
    }
    Ok(())
}

// Answers one case.
fn answer(to: &mut impl Write, kind: Kind, graph: &[u8], file: &[u8]) -> io::Result<()> {
    match kind {
        Kind::Both => answer_both(to, graph, file),
        Kind::Graph => {
            if answer_graph(to, graph)? {
                to.write_all(b"\n")?;
            }
            Ok(())
        }
    }
}

// A room for a file, one byte longer than any that is not too long.
fn file_room() -> [u8; 65537] {
    [0u8; 65537]
}

// Reads the anchor file of a record, and answers it.
fn answer_after(
    from: &mut impl Read,
    to: &mut impl Write,
    kind: Kind,
    graph: &[u8],
) -> io::Result<()> {
    let mut file = file_room();
    let n = read_file(from, &mut file)?;
    answer(to, kind, graph, &file[..n])
}

// Reads the files of a record, and answers it.
fn answer_record(from: &mut impl Read, to: &mut impl Write, kind: Kind) -> io::Result<()> {
    let mut graph = file_room();
    let n = read_file(from, &mut graph)?;
    answer_after(from, to, kind, &graph[..n])
}

// Answers record after record: at most 1,000,000, so that it ends on any input.
fn main(rt: HostRuntime) -> io::Result<()> {
    let mut from = rt.stdin();
    let mut to = rt.stdout();
    for _ in 0..1000000 {
        let Some(kind) = kind_of(read_kind(&mut from)?) else {
            break;
        };
        answer_record(&mut from, &mut to, kind)?;
    }
    Ok(())
}
