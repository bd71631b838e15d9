//! The store: what a parameter holds, and a value stored. All that stands above goes by these functions, but for the fill and for a block, which cut a
//! slice of it by spots.
#![tactic(auto)]

ghost use Rattle.std.specs.Prelude.{◌≡◌, ◌+◌, ◌≤◌, length};
ghost use Rattle.base.specs.Lists.{part, put};
ghost use Rattle.points.specs.Place.{IsInside};

use points::Spot;

/// How many bytes a store has.
pub const LENGTH: usize = 12_427;

/// The bytes of all parameters: types ascending, logicals ascending, parameters ascending, unpadded.
pub type Store = [u8; LENGTH];

/// The bytes of a parameter.
#[tactic(auto, unfolding(base::specs::Lists::part))]
pub fn value_in(store: &Store, spot: Spot) -> &[u8]
    requires { IsInside spot }
    ensures is { result.now ≡ part store.now spot.begin spot.len }
    ensures long { length result.now ≡ spot.len }
{
    &store[spot.begin..spot.begin + spot.len]
}

/// A value stored: as many bytes as its parameter has.
#[tactic(auto, using(base::proofs::Parts::part_all))]
pub fn keep(store: &mut Store, spot: Spot, value: &[u8])
    requires inside { IsInside spot }
    requires long { length value.now ≡ spot.len }
    ensures { store.new ≡ put store.old spot.begin value.now }
{
    base::copy(store, spot.begin, value, 0, spot.len);
}

/// A value told: put into a reply from a place on.
#[tactic(auto, using(base::proofs::Parts::part_all))]
pub fn tell(reply: &mut [u8], at: usize, value: &[u8])
    requires { at + length value.now ≤ length reply.old }
    ensures { reply.new ≡ put reply.old at value.now }
{
    base::copy(reply, at, value, 0, value.len());
}
