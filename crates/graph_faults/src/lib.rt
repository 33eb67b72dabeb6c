// The first fault of the content that a writer of a graph file is given, in the reader's order.
#![tactic(auto)]

mod sections; // sections.rt: the first fault of the labels and of the paths

ghost use Rattle.std.specs.Prelude.{◌≡◌};
ghost use Rattle.wire.specs.Found.{refusal_number, told};
ghost use Rattle.graph.specs.Entries.{graph_given};

use graph_content::content::edges_fault;
use graph_content::covered::cover_fault;
use graph_content::given::Content;
use graph_rules::rules::range_fault;
use sections::{labels_fault, paths_fault};
use wire::refusals::Refusal;
use wire::sizes::{MOST_EDGES, MOST_PATHS, MOST_VERTICES};

// The first fault of the content, in the reader's order.
pub fn content_fault(content: &Content<'_>) -> Result<(), Refusal>
    ensures { told result ≡ refusal_number (graph_given content.now) }
{
    range_fault(1, MOST_VERTICES, content.n)?;
    labels_fault(content)?;
    range_fault(0, MOST_EDGES, content.m)?;
    edges_fault(content)?;
    range_fault(1, MOST_PATHS, content.k)?;
    paths_fault(content)?;
    cover_fault(content)
}
