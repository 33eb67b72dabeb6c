// What a step brings to a score: its candidate, the greater of a score and a candidate, and whether the candidate is the score.
#![tactic(auto)]

ghost use Rattle.std.specs.Prelude.{◌≡◌, ◌+◌, ◌-◌, ◌^◌, ◌<◌, max, ◌≢◌};
ghost use Rattle.std.proofs.Math.IntN.{sub_ℕ};
ghost use Rattle.rounds.specs.Loop.{Told};

// What a step brings, exactly: "A step's candidate may fall below zero".
pub fn candidate(score: u32, weight: u32, gaps: u32) -> i64
    ensures { result ≡ sub_ℕ (score + weight) gaps }
{
    i64::from(score) + i64::from(weight) - i64::from(gaps)
}

// The greater of a score and a step's candidate.
pub fn raised(best: u32, score: u32, weight: u32, gaps: u32) -> u32
    requires { score + weight < 2 ^ 32 }
    ensures { result ≡ max best (score + weight - gaps) }
{
    let brought = candidate(score, weight, gaps);
    if i64::from(best) < brought {
        brought as u32
    } else {
        best
    }
}

// Whether a step gives this score: its candidate is the score exactly.
pub fn gives(score: u32, weight: u32, gaps: u32, given: u32) -> bool
    ensures { Told result (score + weight ≡ given + gaps) (score + weight ≢ given + gaps) }
{
    candidate(score, weight, gaps) == i64::from(given)
}
