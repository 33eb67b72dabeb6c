// The step between two anchors and its gaps.
ghost use Rattle.std.specs.Prelude.{◌≡◌, ◌+◌, ◌-◌, ◌^◌, ◌≤◌, ◌<◌, ◌⊎◌, length, get_or, MatchOption};
ghost use Rattle.wire.specs.Sizes.{most_read};
ghost use Rattle.pair_step.specs.Pairs.{read_gap_in, graph_gap_in, jump_in, step_in};

use crate::pair::{End, Start};

// "Read gap = B.c − A.d − 1."
pub fn read_gap(d: u32, c: u32) -> u32
    requires { d < c }
    ensures { result ≡ read_gap_in d c }
{
    c - d - 1
}

// "Graph gap = s + B.x − 1 − A.y"
pub fn graph_gap(s: u32, x: u32, y: u32) -> u32
    requires { (1 ≤ x) × (y < s + x) × (s + x < 2 ^ 32) }
    ensures { result ≡ graph_gap_in s x y }
{
    s + x - 1 - y
}

// The distance that the graph gap counts, from the end of an anchor to the start of another; None where no walk goes there.
#[tactic(auto, unfolding(crate::specs::Pairs::jump_in))]
pub fn jump(row: &[u32], from: End, to: Start) -> Option<u32>
    requires { (1 ≤ from.u) × (from.u ≤ length row.now) }
    ensures { MatchOption result (jump_in row.now from.u from.y to.v to.x ≡ 0) (λ s. jump_in row.now from.u from.y to.v to.x ≡ s + 1) }
{
    if from.u == to.v && from.y < to.x {
        return Some(0);
    }
    row[from.u as usize - 1].checked_sub(1)
}

// The gap sum of the step from the end of an anchor to the start of another; None where the first does not come before the second.
pub fn step(row: &[u32], from: End, to: Start) -> Option<u32>
    requires le_u { (1 ≤ from.u) × (from.u ≤ length row.now) }
    requires fact { (get_or row.now (from.u - 1) 0 ≡ 0) ⊎ (from.y < get_or row.now (from.u - 1) 0) }
    requires u_bound { (get_or row.now (from.u - 1) 0 ≤ 131072) × (to.x ≤ most_read) × (to.c ≤ most_read) × (1 ≤ to.x) }
    ensures { MatchOption result (step_in row.now from.u from.y from.d to.v to.x to.c ≡ 0) (λ gaps. step_in row.now from.u from.y from.d to.v to.x to.c ≡ gaps + 1) }
{
    if to.c <= from.d {
        return None;
    }
    let s = jump(row, from, to)?;
    Some(read_gap(from.d, to.c) + graph_gap(s, to.x, from.y))
}
