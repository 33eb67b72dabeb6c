// What the listing program prints, laid into a lent output: the listing of two files' bytes, a refusal, or that a file is not there.
#![tactic(auto)]

ghost use Rattle.std.specs.Prelude.{◌≡◌, ◌≤◌, length, take, option_copied};
ghost use Rattle.listing_text.specs.Lines.{listing_room};
ghost use Rattle.listing.specs.Printing.{Listed, Output};
ghost use Rattle.loaded.specs.Files.{file_in};

use anchors_read::read_anchors;
use listing_lines::{put_no_file, put_refused};
use listing_result::{Found, put_result};
use loaded::both_files;
use sweep_placing::sweep;
use wire_lent::zeros;

// Room for any listing.
pub fn listing_room() -> [u8; 163920]
    ensures { listing_room ≡ length result }
{
    zeros()
}

// Lays the listing of two files' bytes, or the refusal, at the front of out, and says how many bytes that took.
fn list(graph: &[u8], file: &[u8], out: &mut [u8]) -> usize
    requires { listing_room ≤ length out.old }
    ensures { Listed graph.now file.now out.old out.new result }
{
    let mut scores: [u32; 2048] = zeros();
    let mut chain: [u32; 2048] = zeros();
    let r = sweep(graph, file, &mut scores, &mut chain);
    if r.number != 0 {
        return put_refused(out, r.number, r.file, r.place);
    }
    let mut letters: [u8; 32768] = zeros();
    let mut numbers: [u32; 10240] = zeros();
    read_anchors(graph, file, &mut letters, &mut numbers);
    let found = Found {
        anchors: r.anchors,
        score: r.score,
        rounds: r.rounds,
        long: r.length,
        numbers: &numbers,
        scores: &scores,
        chain: &chain,
    };
    put_result(out, &found)
}

// Lays what is printed of two files at the front of out, and says how many bytes that took. Each file is given by what loading it gave. A file
// that is not there comes before either is checked, the graph file first.
pub fn output(g: Option<&[u8]>, a: Option<&[u8]>, out: &mut [u8; 163920]) -> usize
    ensures { Output (file_in (option_copied g.entry)) (file_in (option_copied a.entry)) out.old out.new result }
{
    match both_files(g, a) {
        Ok((graph, anchors)) => list(graph, anchors, out),
        Err(file) => put_no_file(out, u32::from(file)),
    }
}

// The first n bytes of an output, or all of it.
pub fn printed(out: &[u8; 163920], n: usize) -> &[u8]
    ensures { result.now ≡ take n out.now }
{
    out.get(..n).unwrap_or(out)
}
