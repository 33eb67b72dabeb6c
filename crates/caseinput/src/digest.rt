// 64-bit FNV-1a digests of bytes, and of numbers, each of 4 bytes, lowest byte first.
ghost use Rattle.std.specs.Prelude.{◌≡◌};
ghost use Rattle.caseinput.specs.Digest.{digest_byte, digest_number};

// The digest of no bytes.
pub const DIGEST_START: u64 = 14695981039346656037;

// The digest with one byte more.
#[tactic(auto, unfolding(crate::specs::Digest::digest_byte))]
pub fn put_byte(h: u64, b: u8) -> u64
    ensures { result ≡ digest_byte h b }
{
    (h ^ u64::from(b)).wrapping_mul(1099511628211)
}

// The digest with one number more.
#[tactic(auto, unfolding(crate::specs::Digest::digest_number))]
pub fn put_number(h: u64, x: u32) -> u64
    ensures { result ≡ digest_number h x }
{
    let four = x.to_le_bytes();
    put_byte(
        put_byte(put_byte(put_byte(h, four[0]), four[1]), four[2]),
        four[3],
    )
}
