// The rule of the reach table: "Reach takes the greatest of its own value and those over edges into v".
ghost use Rattle.std.specs.Prelude.{max, refl};
ghost use Rattle.table_rounds.specs.Held.{raise};

use table_lanes::EdgeRule;

// The rule of reach.
pub struct Reach;

impl EdgeRule for Reach {
    ghost rules = { λ s m edges i. raise m edges };

    ghost Fits = { λ s n table. Unit {0} };

    ghost Can = { λ s i u v y. Unit {0} };

    ghost take = { λ s i u v x y. max x y };

    // The greater of the two.
    fn take(&self, _i: usize, _u: usize, _v: usize, own: u32, there: u32) -> u32 {
        own.max(there)
    }

    ghost fits = { λ s n table f i u v wi wu wv. tt };

    ghost follows = { λ s m edges i. record { all = refl; from = λ e. refl; into = λ v e t. t; link = λ v e x y t. refl; none = λ v e x y t d. absurd (d t) } };
}
