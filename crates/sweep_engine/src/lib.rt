// The sweep: scores start at the weights, and rounds in place raise them until one is quiet.
#![tactic(auto)]

ghost use Rattle.std.specs.Prelude.{◌≡◌, length};
ghost use Rattle.chain.specs.ChainEntries.{IsSweep};
ghost use Rattle.sweep_engine.specs.Sweeping.{weights_of, SweptIn};

use anchors::PER_ANCHOR;
use engine::Engine;
use steps::setting::Setting;
use sweep_round::sweep_round;

// The scores at their start.
fn start_scores(scores: &mut [u32], s: &Setting<'_>)
    requires { length scores.old ≡ s.now.count }
    ensures { scores.new ≡ weights_of s.now }
{
    for j in 0..s.count {
        scores[j] = s.numbers[PER_ANCHOR * j + 4];
    }
}

// The sweep's scores, and its rounds: "The quiet round counts and ends it."
pub fn sweep_scores(scores: &mut [u32], row: &mut [u32], s: &Setting<'_>) -> u32
    requires scores_len { (length scores.old ≡ s.now.count) × (length row.old ≡ s.now.n) }
    ensures { SweptIn s.now result scores.new }
{
    if s.count == 0 {
        return 0;
    }
    start_scores(scores, s);
    let mut rounds: u32 = 0;
    let mut changed = true;
    // No `for`: how many rounds there are is the answer.
    while changed {
        changed = sweep_round(scores, row, s);
        rounds += 1;
    }
    rounds
}

// The sweep. It asks nothing of the read.
pub struct Sweep;

impl Engine for Sweep {
    ghost is = { IsSweep };

    ghost can = { λ _ _ _. Unit {0} };

    ghost able = { λ _ _ _ _ _ _ _. tt };

    fn score(scores: &mut [u32], row: &mut [u32], s: &Setting<'_>, _r: usize) -> u32 {
        sweep_scores(scores, row, s)
    }
}
