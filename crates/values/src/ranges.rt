//! What a number may be.
ghost use Rattle.std.specs.Prelude.{◌≡◌, true, length};
ghost use Rattle.points.specs.Types.{gateway};
ghost use Rattle.values.specs.Judged.{status_ok, rate_ok, size_ok, range_allows};
ghost use Rattle.values.specs.Weighable.{range_long};

use crate::tlps::{number_tlp_ok, tlp_of};
use crate::{signed, unsigned};
use points::{Logical, Range};

/// Whether a byte is a status: from -1 to 5, so that 255 is in and 128 is not.
#[tactic(auto, unfolding(crate::specs::Judged::status_ok))]
pub fn status_ok(byte: u8) -> bool
    ensures { result ≡ status_ok byte }
{
    (-1..=5).contains(&signed(byte))
}

/// Whether a number is one of the twelve sample rates.
#[tactic(auto, unfolding(crate::specs::Judged::rate_ok))]
pub fn rate_ok(n: u32) -> bool
    ensures { result ≡ rate_ok n }
{
    matches!(n, 1..=6 | 10 | 12 | 15 | 20 | 30 | 60)
}

/// Whether a number is a size: on logical 0 it is 240 only, on the others at most 240.
#[tactic(auto, unfolding(crate::specs::Judged::size_ok))]
pub fn size_ok(logical: Logical, n: u32) -> bool
    ensures { result ≡ size_ok logical.0 n }
{
    if logical == Logical(0) {
        return n == 240;
    }
    n <= 240
}

/// Whether a value is in a range. It is as long as the values of that range are.
#[tactic(auto, using(crate::proofs::Widths::le_one), unfolding(crate::specs::Weighable::range_long))]
pub fn range_allows(range: Range, logical: Logical, value: &[u8]) -> bool
    requires { range_long range (length value.now) ≡ true }
    ensures { result ≡ range_allows gateway range logical.0 value.now }
{
    match range {
        Range::Any => true,
        Range::Between { least, most } => (least..=most).contains(&unsigned(value)),
        Range::Status => status_ok(value[0]),
        Range::Rate => rate_ok(unsigned(value)),
        Range::Size => size_ok(logical, unsigned(value)),
        Range::Number => number_tlp_ok(tlp_of(value)),
    }
}
