//! What a value may be, and what it says as a number.
#![tactic(auto)]

mod pairs;
mod ranges;
pub mod readings;
mod tlps;
pub mod weighing;

ghost use Rattle.std.specs.Prelude.{◌≡◌, ◌<◌, ◌^◌, true, length};
ghost use Rattle.std.specs.Float.{binary32, binary64};
ghost use Rattle.std.specs.Float.Ieee.{of_bits};
ghost use Rattle.base.specs.Bytes.{le};
ghost use Rattle.values.specs.Kinds.{printable, signed_of, finite32, finite64};
ghost use Rattle.values.specs.Weighable.{unsigned_long};

pub use pairs::{pair_ok, under};
pub use ranges::{range_allows, rate_ok, size_ok, status_ok};
pub use readings::{Number, NumberKind, Raw, kinds_are_told_apart, number_read, raw_read};
pub use tlps::{number_tlp_ok, tlp_of, tlp_ok};
pub use weighing::weigh;

/// Whether a byte may stand in a text: 0x20 to 0x7E, in every type.
pub fn printable(byte: u8) -> bool
    ensures { result ≡ printable byte }
{
    (0x20..=0x7e).contains(&byte)
}

/// The number that one, two or four bytes say, least significant first.
#[tactic(auto, using(base::proofs::Parts::part_all))]
pub fn unsigned(value: &[u8]) -> u32
    requires { unsigned_long (length value.now) ≡ true }
    ensures is { result ≡ le value.now }
    ensures small { result < 256 ^ length value.now }
{
    match value {
        [_] => base::byte_at(value, 0),
        [_, _] => u32::from(base::word_at(value, 0)),
        _ => base::long_at(value, 0),
    }
}

/// The same of eight bytes.
#[tactic(auto, using(base::proofs::Parts::part_all))]
pub fn quad(value: &[u8]) -> u64
    requires { length value.now ≡ 8 }
    ensures { result ≡ le value.now }
{
    base::quad_at(value, 0)
}

/// A byte in two's complement.
#[tactic(auto, unfolding(crate::specs::Kinds::signed_of))]
pub fn signed(byte: u8) -> i8
    ensures { result ≡ signed_of byte }
{
    i8::from_le_bytes([byte])
}

/// Whether the pattern of a single is finite. A test of the exponent's field alone: minus zero and subnormals are finite.
#[tactic(auto, unfolding(crate::specs::Kinds::finite32))]
pub fn finite32(n: u32) -> bool
    ensures { result ≡ finite32 n }
{
    n / 0x800000 % 256 != 255
}

/// The same of a double's pattern.
#[tactic(auto, unfolding(crate::specs::Kinds::finite64))]
pub fn finite64(n: u64) -> bool
    ensures { result ≡ finite64 n }
{
    n / 0x10000000000000 % 2048 != 2047
}

/// The single of a pattern. `from_bits` takes no NaN's pattern: those lie above infinity's, signs aside, and are all the one value NAN.
#[tactic(auto, using(crate::proofs::Nans::nans))]
pub fn single(n: u32) -> f32
    ensures { result ≡ of_bits binary32 n }
{
    if 0x7f800000 < n % 0x80000000 {
        f32::NAN
    } else {
        f32::from_bits(n)
    }
}

/// The double of a pattern, likewise.
#[tactic(auto, using(crate::proofs::Nans::nans))]
pub fn double(n: u64) -> f64
    ensures { result ≡ of_bits binary64 n }
{
    if 0x7ff0000000000000 < n % 0x8000000000000000 {
        f64::NAN
    } else {
        f64::from_bits(n)
    }
}
