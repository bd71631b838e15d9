//! What every crate uses: the laws in proofs/, bytes read as numbers, and bytes copied.
#![tactic(auto)]

ghost use Rattle.std.specs.Prelude.{◌≡◌, ◌+◌, ◌≤◌, ◌<◌, length};
ghost use Rattle.base.specs.Lists.{part, put};
ghost use Rattle.base.specs.Bytes.{le};

// The N bytes from a place on.
#[tactic(auto, unfolding(crate::specs::Lists::part))]
fn bytes_at<const N: usize>(bytes: &[u8], at: usize) -> [u8; N]
    requires { at + N ≤ length bytes.now }
    ensures { result ≡ part bytes.now at N }
{
    *bytes[at..at + N].as_array().unwrap()
}

/// The byte at a place, at 32 bits: the width at which ranges are judged.
#[tactic(auto, using(crate::proofs::Numbers::le_of_1))]
pub fn byte_at(bytes: &[u8], at: usize) -> u32
    requires { at + 1 ≤ length bytes.now }
    ensures is { result ≡ le (part bytes.now at 1) }
    ensures small { result < 256 }
{
    u32::from(bytes[at])
}

/// The number that the two bytes from a place on say, least significant first.
#[tactic(auto, using(crate::proofs::Numbers::le_of_2))]
pub fn word_at(bytes: &[u8], at: usize) -> u16
    requires { at + 2 ≤ length bytes.now }
    ensures { result ≡ le (part bytes.now at 2) }
{
    u16::from_le_bytes(bytes_at(bytes, at))
}

/// The number that the four bytes from a place on say, least significant first.
#[tactic(auto, using(crate::proofs::Numbers::le_of_4))]
pub fn long_at(bytes: &[u8], at: usize) -> u32
    requires { at + 4 ≤ length bytes.now }
    ensures { result ≡ le (part bytes.now at 4) }
{
    u32::from_le_bytes(bytes_at(bytes, at))
}

/// The number that the eight bytes from a place on say, least significant first.
#[tactic(auto, using(crate::proofs::Numbers::le_of_8))]
pub fn quad_at(bytes: &[u8], at: usize) -> u64
    requires { at + 8 ≤ length bytes.now }
    ensures { result ≡ le (part bytes.now at 8) }
{
    u64::from_le_bytes(bytes_at(bytes, at))
}

/// Copies n bytes of src, from a place on, to a place of dst: a value for the store, or a value of it for a reply.
#[tactic(auto, using(crate::proofs::Copies::copy_steps))]
pub fn copy(dst: &mut [u8], at: usize, src: &[u8], from: usize, n: usize)
    requires { (at + n ≤ length dst.old) × (from + n ≤ length src.now) }
    ensures { dst.new ≡ put dst.old at (part src.now from n) }
{
    for i in 0..n {
        dst[at + i] = src[from + i];
    }
}
