// The first fault of the content, in the reader's order.
ghost use Rattle.std.specs.Prelude.{◌≡◌, ◌≤◌, take};
ghost use Rattle.wire.specs.Found.{refusal_number, told};
ghost use Rattle.wire.specs.Sizes.{most_read, most_anchors};
ghost use Rattle.anchors.specs.AnchorRules.{no_anchor};
ghost use Rattle.anchors.specs.AnchorEntries.{anchors_given};
ghost use Rattle.anchors_parts.specs.LabelTables.{content_of};
ghost use Rattle.anchors_content.specs.FirstFaults.{each_fault};

use crate::given::Content;
use anchors_parts::labels::Labels;
use anchors_parts::one::own_fault;
use anchors_rules::rules::{NO_ANCHOR, key_below};
use graph_content::content::letters_fault;
use graph_rules::rules::range_fault;
use wire::refusals::Refusal;
use wire::sizes::{MOST_ANCHORS, MOST_READ};

// The anchors, each by itself and against the one before it, over the labels of an accepted graph.
fn each_fault(labels: &Labels<'_>, content: &Content<'_>) -> Result<(), Refusal>
    requires { (content.now.r ≤ most_read) × (content.now.n ≤ most_anchors) }
    ensures { told result ≡ each_fault (content_of labels.now) (take content.now.r content.now.buffers.letters) content.now.n 0 no_anchor
        content.now.buffers.anchors }
{
    let read = content.read();
    let mut last = NO_ANCHOR;
    for i in 0..content.n as usize {
        let a = content.anchor(i);
        own_fault(labels, read, a)?;
        if !key_below(last, a) {
            return Err(Refusal::NotRising);
        }
        last = a;
    }
    Ok(())
}

// The read, then N and the anchors, over the labels of an accepted graph.
pub fn content_fault(labels: &Labels<'_>, content: &Content<'_>) -> Result<(), Refusal>
    ensures { told result ≡ refusal_number (anchors_given (content_of labels.now) content.now) }
{
    range_fault(1, MOST_READ, content.r)?;
    letters_fault(content.read())?;
    range_fault(0, MOST_ANCHORS, content.n)?;
    each_fault(labels, content)
}
