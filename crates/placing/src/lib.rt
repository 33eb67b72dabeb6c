// What the chaining entries share: how a call on both files begins, whichever engine follows, and the answers. No engine stands below this crate.
#![tactic(auto)]

ghost use Rattle.std.specs.Prelude.{◌≡◌, ◌≤◌, length};
ghost use Rattle.wire.specs.Sizes.{full_letters, full_anchors};
ghost use Rattle.chain.specs.ChainEntries.{room_for_chain};
ghost use Rattle.placing.specs.Answer.{refusal_of, placed_of};
ghost use Rattle.placing.specs.Begun.{Begun};

use anchors_read::{AnchorsAnswer, read_anchors};
use placing_over::over::Placement;
use wire::refusals::Refusal;
use wire::sizes::{FULL_CHAIN, FULL_SCORES};

// Number, file and place; then the anchors of the file, the greatest score, the rounds and the chain's length.
#[repr(C)]
#[derive(Clone, Copy)]
pub struct ChainAnswer {
    pub number: u32,
    pub file: u32,
    pub place: u32,
    pub anchors: u32,
    pub score: u32,
    pub rounds: u32,
    pub length: u32,
}

// A refusal: its other numbers are 0.
pub fn refusal(number: u32, file: u32, place: u32) -> ChainAnswer
    ensures { result ≡ refusal_of number file place }
{
    ChainAnswer {
        number: number,
        file: file,
        place: place,
        anchors: 0,
        score: 0,
        rounds: 0,
        length: 0,
    }
}

// An acceptance: 0 0 0, N, and what the placement has.
pub fn acceptance(anchors: u32, t: Placement) -> ChainAnswer
    ensures { result ≡ placed_of anchors t }
{
    ChainAnswer {
        number: 0,
        file: 0,
        place: 0,
        anchors: anchors,
        score: t.score,
        rounds: t.rounds,
        length: t.length,
    }
}

// Whether each buffer has full size, by its length.
fn roomy(scores: usize, chain: usize) -> bool
    ensures { result ≡ room_for_chain scores chain }
{
    FULL_SCORES <= scores && FULL_CHAIN <= chain
}

// Begins a call on both files: 13, then the refusals of the two files; else the anchors' numbers are read. `letters` is room to work in.
pub fn begin(
    graph: &[u8],
    file: &[u8],
    scores: &[u32],
    chain: &[u32],
    letters: &mut [u8],
    numbers: &mut [u32],
) -> AnchorsAnswer
    requires { (full_letters ≤ length letters.old) × (full_anchors ≤ length numbers.old) }
    ensures { Begun graph.now file.now (record { scores = scores.now; chain = chain.now }) numbers.new result }
{
    if !roomy(scores.len(), chain.len()) {
        return AnchorsAnswer {
            number: u32::from(Refusal::SmallBuffer),
            file: 0,
            place: 0,
            letters: 0,
            anchors: 0,
        };
    }
    read_anchors(graph, file, letters, numbers)
}
