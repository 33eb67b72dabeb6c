// Lists the best chain of the files graph.bin and anchors.bin in the current folder: the anchors, the greatest score and the rounds, then a line
// for each anchor of the chain; or the one line of a refusal or of a file that is not there.
#![tactic(auto)]

use listing_files::print_listing;
use std::io;

fn main(rt: HostRuntime) -> io::Result<()> {
    print_listing(&rt, &mut rt.stdout(), b"graph.bin", b"anchors.bin")
}
