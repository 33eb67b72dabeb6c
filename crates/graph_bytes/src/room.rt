// How many bytes numbers take, by their group counts.
ghost use Rattle.std.specs.Prelude.{◌≡◌, length};
ghost use Rattle.graph.specs.Encode.{encode_numbers};

use wire::numbers::group_count;

// How many bytes numbers take, one after the other.
pub fn numbers_size(numbers: &[u32]) -> usize
    ensures { result ≡ length (encode_numbers numbers.now) }
{
    let mut total: usize = 0;
    for number in numbers {
        total += group_count(*number);
    }
    total
}
