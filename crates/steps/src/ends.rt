// Where the anchors end: the numbers of each that a step is made of.
ghost use Rattle.std.specs.Prelude.{◌≡◌, ◌≤◌, length};
ghost use Rattle.wire.specs.Lent.{front};
ghost use Rattle.anchors.specs.Anchors.{y, d};
ghost use Rattle.steps.specs.Filling.{each_of, NumbersFit};

use anchors::PER_ANCHOR;

// Where the anchors end: their vertices, and their last letters in label and read.
pub fn fill_ends(numbers: &[u32], count: usize, us: &mut [u32], ys: &mut [u32], ds: &mut [u32])
    requires numbers_fit { NumbersFit count numbers.now }
    requires count_in_bounds { (count ≤ length us.old) × (count ≤ length ys.old) × (count ≤ length ds.old) }
    ensures us_after { us.new ≡ front (each_of (λ a. a.v) numbers.now count) us.old }
    ensures ys_after { ys.new ≡ front (each_of y numbers.now count) ys.old }
    ensures ds_after { ds.new ≡ front (each_of d numbers.now count) ds.old }
{
    for j in 0..count {
        let at = PER_ANCHOR * j;
        us[j] = numbers[at];
        ys[j] = numbers[at + 1] + numbers[at + 3] - 1;
        ds[j] = numbers[at + 2] + numbers[at + 3] - 1;
    }
}
