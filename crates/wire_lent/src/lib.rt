// The unused places of a lent buffer, 0 from a place up to the full size, and rooms of zeros; for each type of number in a buffer.
#![tactic(auto)]

ghost use Rattle.std.specs.Prelude.{◌≡◌, ℕ, ◌-◌, ◌≤◌, List, ◌++◌, length, take, drop, replicate};
ghost use Rattle.std.proofs.Common.{rules};
ghost use Rattle.wire.specs.Lent.{laid};
ghost use Rattle.wire_lent.specs.Zeros.{laid_own, zeros, zeros_are};

// A type of number that a buffer holds, with its 0.
pub trait Zero: Copy {
    // 0, and what a buffer holds whose used places come first, and then 0 up to the full size: `laid`
    ghost ZERO: { Self };

    ghost laid: { ℕ → List Self → List Self → List Self };
    // n times 0
    ghost zeros: { ℕ → List Self };

    const ZERO: Self;

    // what `laid` is where the used places are the buffer's own
    ghost laid_is: { (from full : ℕ) (old : List Self) → from ≤ full → full ≤ length old
        → laid full (take from old) old ≡ take from old ++ (replicate (full - from) ZERO ++ drop full old) };

    ghost zeros_are: { (n : ℕ) → zeros n ≡ replicate n ZERO };

    // a copy of 0 can be had, and is 0
    ghost copies: { Self.is_infallible ZERO × ((y : Self) → Self.is_clone ZERO y → y ≡ ZERO) };
}

impl Zero for u8 {
    ghost ZERO = { 0 };

    ghost laid = { laid };

    ghost zeros = { zeros };

    const ZERO: u8 = 0;

    ghost laid_is = { laid_own };

    ghost zeros_are = { zeros_are };

    ghost copies = { Prim.search rules };
}

impl Zero for u32 {
    ghost ZERO = { 0 };

    ghost laid = { laid };

    ghost zeros = { zeros };

    const ZERO: u32 = 0;

    ghost laid_is = { laid_own };

    ghost zeros_are = { zeros_are };

    ghost copies = { Prim.search rules };
}

// 0 in the places of `out` from `from` up to the full size.
pub fn zero_rest<T: Zero>(out: &mut [T], from: usize, full: usize)
    requires { (from ≤ full) × (full ≤ length out.old) }
    ensures { out.new ≡ T.laid full (take from out.old) out.old }
{
    out[from..full].fill(T::ZERO);
}

// A room of N zeros.
pub fn zeros<T: Zero, const N: usize>() -> [T; N]
    ensures { result ≡ T.zeros N }
{
    [T::ZERO; N]
}
