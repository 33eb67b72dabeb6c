// The bytes of a whole graph file: how many the content in lent buffers takes, and these written.
#![tactic(auto)]

mod room; // room.rt: how many bytes the labels and the paths take
mod puts; // puts.rt: the labels written

ghost use Rattle.std.specs.Prelude.{◌≡◌, ◌≤◌, length};
ghost use Rattle.wire.specs.Found.{refusal_number};
ghost use Rattle.wire.specs.Lent.{front};
ghost use Rattle.graph.specs.Encode.{encode_graph};
ghost use Rattle.graph.specs.Entries.{graph_in, graph_given};

use graph_bytes::puts::{put_numbers, put_paths};
use graph_bytes::room::numbers_size;
use graph_content::given::Content;
use puts::put_labels;
use room::{labels_size, paths_size};
use wire::numbers::{group_count, put_number};
use wire::sizes::GRAPH_KIND;

// How many bytes the encoding of content without fault takes.
pub fn graph_size(content: &Content<'_>) -> usize
    requires faultless { refusal_number (graph_given content.now) ≡ 0 }
    ensures { result ≡ length (encode_graph (graph_in content.now)) }
{
    let labels = group_count(GRAPH_KIND) + group_count(content.n) + labels_size(content);
    let edges = group_count(content.m) + numbers_size(content.edge_numbers());
    labels + edges + group_count(content.k) + paths_size(content)
}

// Writes content without fault, for which there is room.
pub fn put_graph(content: &Content<'_>, out: &mut [u8]) -> usize
    requires faultless { refusal_number (graph_given content.now) ≡ 0 }
    requires room { length (encode_graph (graph_in content.now)) ≤ length out.old }
    ensures { (result ≡ length (encode_graph (graph_in content.now)))
        × (out.new ≡ front (encode_graph (graph_in content.now)) out.old) }
{
    let mut at = put_number(out, GRAPH_KIND);
    at += put_number(&mut out[at..], content.n);
    at += put_labels(&mut out[at..], content);
    at += put_number(&mut out[at..], content.m);
    at += put_numbers(&mut out[at..], content.edge_numbers());
    at += put_number(&mut out[at..], content.k);
    at += put_paths(&mut out[at..], content);
    at
}
