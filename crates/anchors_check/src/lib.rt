// The check of the anchor file: the definitions are in the crate anchors, and the check here decides without writing.
#![tactic(auto)]

ghost use Rattle.std.specs.Prelude.{◌≡◌};
ghost use Rattle.wire.specs.Found.{found, replied};
ghost use Rattle.anchors.specs.AnchorReading.{anchors_of};
ghost use Rattle.anchors.specs.AnchorEntries.{both_reply};
ghost use Rattle.anchors_check.specs.CheckedAnchors.{checked_anchors_of, checked_both_of};
ghost use Rattle.anchors_parts.specs.LabelTables.{content_of};

use anchors_head::read_head;
use anchors_parts::each::check_each;
use anchors_parts::labels::Labels;
use graph_check::{Sections, check_graph};
use graph_parts::counts::read_count;
use graph_parts::labels::check_letters;
use wire::refusals::{Fault, File, FileFault, Refusal};
use wire::sizes::{FULL_LENGTHS, MOST_ANCHORS, MOST_FILE_BYTES};
use wire_lent::zeros;

// r and N of an accepted file, and the places where the read's letters and the anchors start.
#[derive(Clone, Copy)]
pub struct AnchorSections {
    pub r: u32,
    pub read: usize,
    pub n: u32,
    pub anchors: usize,
}

// The check of one anchor file over the labels of an accepted graph file: its sections, or the first fault.
pub fn check_over(labels: &Labels<'_>, file: &[u8]) -> Result<AnchorSections, Fault>
    ensures { found result ≡ checked_anchors_of (anchors_of (content_of labels.now) file.now) }
{
    if MOST_FILE_BYTES < file.len() {
        return Err(Refusal::OutOfRange.at(MOST_FILE_BYTES));
    }
    let (r, read) = read_head(file)?;
    let (_, next) = check_letters(file, read, r)?;
    let (n, anchors) = read_count(file, next, 0, MOST_ANCHORS)?;
    let (_, end) = check_each(labels, &file[read.at..next.at], file, n, anchors)?;
    if end.at != file.len() {
        return Err(Refusal::LeftOver.at(end.at));
    }
    Ok(AnchorSections {
        r,
        read: read.at,
        n,
        anchors: anchors.at,
    })
}

// The check of both files, the whole graph file first: the sections of both, or the first fault.
pub fn check_anchors(graph: &[u8], file: &[u8]) -> Result<(Sections, AnchorSections), FileFault>
    ensures { replied result ≡ checked_both_of (both_reply graph.now file.now) }
{
    let g = check_graph(graph).map_err(|fault| fault.of(File::Graph))?;
    let mut starts: [u32; FULL_LENGTHS] = zeros();
    let mut lengths: [u32; FULL_LENGTHS] = zeros();
    let labels = Labels::of(graph, g.labels, g.n, &mut starts, &mut lengths);
    let a = check_over(&labels, file).map_err(|fault| fault.of(File::Anchors))?;
    Ok((g, a))
}
