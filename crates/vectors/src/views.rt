// The letters of an anchor, in whichever of the two files is named.
use anchors_view::view::{anchor_letters, view};
use std::io;
use std::io::Write;
use telling::say;
use texts::{part, say_filled};

// Writes where an anchor's letters stand, and the letters.
fn view_case<'a>(
    to: &mut impl Write,
    graph: &'a [u8],
    file: &'a [u8],
    number: u32,
    named: u32,
) -> io::Result<()> {
    let seen = view(graph, file, number, named);
    say_filled(
        to,
        b"anchor # in #: file # start # length # letters [",
        &[
            number as u64,
            named as u64,
            u32::from(seen.file) as u64,
            seen.start as u64,
            seen.len as u64,
        ],
    )?;
    say(to, anchor_letters(graph, file, number, named))?;
    say(to, b"]\n")
}

// The same in two files that are parts of a text.
fn view_in(
    to: &mut impl Write,
    text: &[u8],
    graph: usize,
    file: usize,
    number: u32,
    named: u32,
) -> io::Result<()> {
    view_case(to, part(text, graph), part(text, file), number, named)
}

// The three anchors of the listing, in both files.
fn whole_cases(to: &mut impl Write, text: &[u8]) -> io::Result<()> {
    view_in(to, text, 1, 2, 1, 1)?; // AC
    view_in(to, text, 1, 2, 1, 2)?;
    view_in(to, text, 1, 2, 2, 1)?; // TT
    view_in(to, text, 1, 2, 2, 2)?;
    view_in(to, text, 1, 2, 3, 1)?; // CA
    view_in(to, text, 1, 2, 3, 2)
}

// The empty part: a file is refused, the number is not 1 to N, or the file named is neither.
fn empty_cases(to: &mut impl Write, text: &[u8]) -> io::Result<()> {
    view_in(to, text, 1, 2, 0, 1)?;
    view_in(to, text, 1, 2, 4, 2)?;
    view_in(to, text, 1, 2, 1, 0)?;
    view_in(to, text, 1, 2, 1, 3)?;
    view_in(to, text, 3, 2, 1, 1)?;
    view_in(to, text, 3, 2, 1, 2)?;
    view_in(to, text, 1, 3, 1, 1)?;
    view_in(to, text, 1, 3, 1, 2)
}

// The views of a text's files.
fn cases_of(to: &mut impl Write, text: &[u8]) -> io::Result<()> {
    say(to, part(text, 0))?;
    whole_cases(to, text)?;
    empty_cases(to, text)
}

// The listing's files are parts 1 and 2, and the empty file part 3.
pub fn view_cases(to: &mut impl Write) -> io::Result<()> {
    cases_of(
        to,
        b"letters of the listing's anchors\n|\
          \x01\x04\x02\x41\x43\x01\x47\x02\x54\x54\x02\x43\x41\x04\x01\x02\x01\x03\x02\x04\x03\x04\x02\x03\x01\x02\x04\x03\x01\x03\x04|\
          \x02\x06\x41\x43\x54\x54\x43\x41\x03\x01\x01\x01\x02\x02\x03\x01\x03\x02\x02\x04\x01\x05\x02\x02||",
    )
}
