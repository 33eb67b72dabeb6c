// The letters of one anchor, as they stand in either file.
ghost use Rattle.std.specs.Prelude.{◌≡◌};
ghost use Rattle.anchors.specs.AnchorEntries.{both_reply};
ghost use Rattle.anchors.specs.View.{view_of, letters_view};
ghost use Rattle.anchors_view.specs.Viewed.{view_held, Inside, viewed_bytes};

use anchors_check::check_anchors;
use anchors_parts::labels::Labels;
use anchors_parts::one::five_after;
use wire::numbers::Cursor;
use wire::refusals::File;
use wire::sizes::FULL_LENGTHS;
use wire_lent::zeros;

// A part of a file: the file, the place where it starts and how long it is.
#[derive(Clone, Copy)]
pub struct Viewed {
    pub file: File,
    pub start: u32,
    pub len: u32,
}

// The empty part at the front of the graph file.
const EMPTY_VIEW: Viewed = Viewed {
    file: File::Graph,
    start: 0,
    len: 0,
};

// Where the letters of an anchor stand in the file named, 1 or 2; the empty part at the front of the graph file where a file is refused, the anchor's
// number is not 1 to N, or the file named is neither.
pub fn view(graph: &[u8], anchors: &[u8], number: u32, file: u32) -> Viewed
    ensures { view_held result ≡ view_of (both_reply graph.now anchors.now) number file }
{
    let Ok((g, a)) = check_anchors(graph, anchors) else {
        return EMPTY_VIEW;
    };
    if number < 1 || a.n < number {
        return EMPTY_VIEW;
    }
    let Ok((five, _, _)) = five_after(anchors, Cursor { at: a.anchors }, number - 1) else {
        return EMPTY_VIEW;
    };
    match file {
        1 => {
            let mut starts: [u32; FULL_LENGTHS] = zeros();
            let mut lengths: [u32; FULL_LENGTHS] = zeros();
            let labels = Labels::of(graph, g.labels, g.n, &mut starts, &mut lengths);
            Viewed {
                file: File::Graph,
                start: labels.start(five.v) + (five.x - 1),
                len: five.len,
            }
        }
        2 => Viewed {
            file: File::Anchors,
            start: a.read as u32 + (five.c - 1),
            len: five.len,
        },
        _ => EMPTY_VIEW,
    }
}

// The part that a view names, of the file that it names.
fn part_of<'a>(graph: &'a [u8], anchors: &'a [u8], w: Viewed) -> &'a [u8]
    requires { Inside w graph.now anchors.now }
    ensures { result.now ≡ viewed_bytes w graph.now anchors.now }
{
    let start = w.start as usize;
    let end = start + w.len as usize;
    match w.file {
        File::Graph => &graph[start..end],
        File::Anchors => &anchors[start..end],
    }
}

// The letters of an anchor, as they stand in the file named, 1 or 2; else the empty part at the front of the graph file.
pub fn anchor_letters<'a>(graph: &'a [u8], anchors: &'a [u8], number: u32, file: u32) -> &'a [u8]
    ensures { result.now ≡ letters_view graph.now anchors.now number file }
{
    part_of(graph, anchors, view(graph, anchors, number, file))
}
