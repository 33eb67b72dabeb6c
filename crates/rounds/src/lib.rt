// Rounds in place until one is quiet: the definitions are in specs/, the theorem in proofs/. The code here is what every table's loops share.
#![tactic(auto)]

ghost use Rattle.std.specs.Prelude.{◌≡◌, ◌≤◌};
ghost use Rattle.rounds.specs.Place.{cell_place};

// The place of cell (v, i) of a table of sixteen columns.
pub fn cell_place(v: u32, i: u32) -> usize
    requires le_v { 1 ≤ v }
    requires le_i { 1 ≤ i }
    ensures { result ≡ cell_place v i }
{
    16 * (v as usize - 1) + i as usize - 1
}
