// A row of sixteen cells taken from a table, and what the row of another vertex brings to it, cell by cell, by any rule.
#![tactic(auto)]

ghost use Rattle.std.specs.Prelude.{◌≡◌, ℕ, ◌+◌, ◌-◌, ◌*◌, ◌≤◌, ◌<◌, List, length, get_or};
ghost use Rattle.wire.specs.Sizes.{table_row};
ghost use Rattle.rounds.specs.Rounds.{Within};
ghost use Rattle.rounds.specs.Rule.{Rule};
ghost use Rattle.rounds.specs.Place.{cell_place};
ghost use Rattle.rounds.specs.Table.{cell};
ghost use Rattle.table_rows.specs.Lanes.{Lanes};
ghost use Rattle.table_lanes.specs.Follows.{Follows};

use wire::sizes::ROW;

// A rule of the rounds of a table, by what an edge brings. Columns are counted from 1 in the clauses and from 0 in the code.
pub trait EdgeRule {
    // the rule of each column, over the first m edges of a list
    ghost rules: { Self → ℕ → List ℕ → ℕ → Rule };
    // a table of n vertices on which every step fits
    ghost Fits: { Self → ℕ → List ℕ → Type 0 };
    // the step in column i over an edge from u to v fits, where u's entry is y
    ghost Can: { Self → ℕ → ℕ → ℕ → ℕ → Type 0 };
    // what v's entry x becomes in column i over an edge from u, whose entry is y
    ghost take: { Self → ℕ → ℕ → ℕ → ℕ → ℕ → ℕ };

    // What v's entry becomes over an edge from u.
    fn take(&self, i: usize, u: usize, v: usize, own: u32, there: u32) -> u32
        requires { Can self.now (i + 1) u v there }
        ensures { result ≡ take self.now (i + 1) u v own there };

    ghost fits: { (s : Self) (n : ℕ) (table : List ℕ) → Fits s n table → (i u v : ℕ) → Within table_row i → Within n u → Within n v → Can s i u v (cell cell_place u i table) };

    ghost follows: { (s : Self) (m : ℕ) (edges : List ℕ) (i : ℕ) → Follows m edges (rules s m edges i) (take s i) };
}

// The row of a table that starts at the place `at`.
pub fn row_at(table: &[u32], at: usize) -> [u32; 16]
    requires { at + table_row ≤ length table.now }
    ensures { Lanes result (λ i. get_or table.now (at + i) 0) }
{
    let mut row = [0u32; 16];
    row.copy_from_slice(&table[at..at + ROW]);
    row
}

// What a row of vertex v becomes over an edge from u, cell by cell.
pub fn take_row<R: EdgeRule>(
    rule: &R,
    mut row: [u32; 16],
    table: &[u32],
    u: usize,
    v: usize,
) -> [u32; 16]
    requires row_of_u { (1 ≤ u) × (table_row * u ≤ length table.now) }
    requires can { (i : ℕ) → i < table_row → R.Can rule.now (i + 1) u v (get_or table.now (table_row * (u - 1) + i) 0) }
    ensures { Lanes result (λ i. R.take rule.now (i + 1) u v (get_or row i 0) (get_or table.now (table_row * (u - 1) + i) 0)) }
{
    let at = ROW * (u - 1);
    for i in 0..ROW {
        row[i] = rule.take(i, u, v, row[i], table[at + i]);
    }
    row
}
