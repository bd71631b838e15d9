//! What the parameters of a block hold.

ghost use Rattle.std.specs.Prelude.{◌≡◌, ◌≤◌, length};
ghost use Rattle.points.specs.Types.{gateway};
ghost use Rattle.store.specs.Store.{values, span_of};

use lists::any::AnyBlock;
use points::Parameter;
use store::Store;

/// The bytes of a block: one stretch of the store, since its parameters lie there one behind the other. `store::value_in` gives those of one
/// parameter.
#[tactic(auto, using(crate::proofs::Stretch::stretch_cases))]
pub fn values_in(store: &Store, block: AnyBlock) -> &[u8]
    requires some { 1 ≤ block.count.0 }
    ensures is { result.now ≡ values gateway store.now block.index block.logical.0 block.start.0 block.count.0 }
    ensures long { length result.now ≡ span_of block.index block.start.0 block.count.0 }
{
    let first = points::spot_at(block.index, block.logical, block.start);
    let end = block.start.0 + block.count.0;
    let last = points::spot_at(block.index, block.logical, Parameter(end - 1));
    &store[first.begin..last.begin + last.len]
}
