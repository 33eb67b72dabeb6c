// The anchor that the chain ends at.
#![tactic(auto)]

ghost use Rattle.std.specs.Prelude.{◌≤◌, length};
ghost use Rattle.chain.specs.Named.{Top};

// "the lowest-numbered anchor of greatest score", of the anchors with these scores, of which there is at least one.
pub fn top(scores: &[u32]) -> usize
    requires { 1 ≤ length scores.now }
    ensures { Top (length scores.now) scores.now result }
{
    let mut best = 0;
    for i in 1..scores.len() {
        if scores[best] < scores[i] {
            best = i;
        }
    }
    best + 1
}
