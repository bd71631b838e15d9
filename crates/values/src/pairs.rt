//! The pairs of type 124: size and configured points (1, 12), periodic entries and index (3, 5), daily entries and index (4, 6).
ghost use Rattle.std.specs.Prelude.{◌≡◌, ◌<◌, true, length};
ghost use Rattle.base.specs.Bytes.{le};
ghost use Rattle.points.specs.Types.{gateway, logicals, segments};
ghost use Rattle.points.specs.Place.{Here, len_at};
ghost use Rattle.store.specs.Store.{value as value_of};
ghost use Rattle.values.specs.Pairs.{under, pair_of, in_pair, paired};
ghost use Rattle.values.specs.Weighed.{changed, mated};
ghost use Rattle.values.specs.Weighable.{Weighable, unsigned_long};

use crate::unsigned;
use points::{Logical, Parameter};
use store::Store;

/// Type 124 is the last of the six.
const SEGMENTS: usize = 5;

/// Whether an index is below its count, or zero where the count is zero.
pub fn under(index: u32, count: u32) -> bool
    ensures { result ≡ under index count }
{
    index < count || index == 0 && count == 0
}

/// The number that the store holds of a parameter of type 124.
#[tactic(auto, using(store::proofs::Spots::value_at))]
fn held(store: &Store, logical: Logical, parameter: u8) -> u32
    requires here { Here gateway segments logical.0 parameter }
    requires long { unsigned_long (len_at segments parameter) ≡ true }
    ensures { result ≡ le (value_of gateway store.now segments logical.0 parameter) }
{
    let spot = points::spot_at(SEGMENTS, logical, Parameter(parameter));
    unsigned(store::value_in(store, spot))
}

/// Whether a value for a parameter of type 124 goes with its mate as the store has it. Most parameters have none.
#[tactic(auto, using(crate::proofs::Mates::mates), unfolding(crate::specs::Pairs::pair_of, crate::specs::Pairs::paired))]
fn in_step(store: &Store, logical: Logical, parameter: usize, value: &[u8]) -> bool
    requires there { logical.0 < logicals gateway segments }
    requires long { in_pair parameter ≡ true → unsigned_long (length value.now) ≡ true }
    ensures { result ≡ paired (pair_of parameter) logical.0 (changed parameter value.now (value_of gateway store.now segments logical.0)) }
{
    match parameter {
        1 => logical == Logical(0) || held(store, logical, 12) <= unsigned(value),
        12 => logical == Logical(0) || unsigned(value) <= held(store, logical, 1),
        3 => under(held(store, logical, 5), unsigned(value)),
        5 => under(unsigned(value), held(store, logical, 3)),
        4 => under(held(store, logical, 6), unsigned(value)),
        6 => under(unsigned(value), held(store, logical, 4)),
        _ => true,
    }
}

/// Whether a value goes with its mate. Only type 124 has pairs.
#[tactic(auto, using(crate::proofs::Mates::rows), unfolding(crate::specs::Weighed::mated))]
pub fn pair_ok(store: &Store, row: usize, logical: Logical, value: &[u8]) -> bool
    requires { Weighable row logical.0 value.now }
    ensures { result ≡ mated gateway store.now row logical.0 value.now }
{
    let first = points::first_of(SEGMENTS) as usize;
    row < first || in_step(store, logical, row - first, value)
}
