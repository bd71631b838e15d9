//! System write: one value stored by the system, which may write what is read-only.
#![tactic(auto)]

ghost use Rattle.std.specs.Prelude.{◌≡◌, IfOk};
ghost use Rattle.faults.specs.Faults.{outcome_of};
ghost use Rattle.points.specs.Types.{gateway};
ghost use Rattle.rules.specs.System.{system_write, setting, leaving};
ghost use Rattle.system.specs.One.{one_of, named};

use faults::{Refusal, refuse_unless};
use lists::Caller;
use lists::any::AnyBlock;
use points::{Count, Tlp};
use store::Store;

/// The list of one that three numbers name.
#[tactic(auto, unfolding(crate::specs::One::named, points::specs::There::there, base::specs::Check::checks), using(points::proofs::Cases::no_type, points::proofs::Cases::of_type))]
fn one(tlp: Tlp) -> Result<AnyBlock, Refusal>
    ensures is { one_of result ≡ named tlp.point.0 tlp.logical.0 tlp.parameter.0 }
    ensures one { IfOk result (λ block. block.count.0 ≡ 1) }
{
    let index = points::index_of(tlp.point).ok_or(Refusal::NoPointType)?;
    let logicals = points::logicals_of(index);
    refuse_unless(tlp.logical.0 < logicals, Refusal::NoLogical)?;
    let height = points::height_of(index);
    refuse_unless(tlp.parameter.0 < height, Refusal::NoParameter)?;
    Ok(AnyBlock {
        index,
        logical: tlp.logical,
        start: tlp.parameter,
        count: Count(1),
    })
}

/// The value stored, in a store that is whole.
#[tactic(auto, unfolding(rules::specs::System::leaving, base::specs::Check::checks), using(crate::proofs::Setting::setting_rows))]
fn set(store: &mut Store, tlp: Tlp, value: &[u8]) -> Result<(), Refusal>
    ensures { record { outcome = outcome_of result; store = store.new } ≡ leaving gateway store.old (setting gateway store.old tlp.point.0 tlp.logical.0 tlp.parameter.0 value.now) }
{
    let block = one(tlp)?;
    let spot = points::spot_at(block.index, block.logical, block.start);
    refuse_unless(value.len() == spot.len, Refusal::Length)?;
    writes::check(&block, Caller::System, value, 0, store).map_err(|fault| fault.refusal)?;
    writes::keep(&block, Caller::System, value, 0, store);
    Ok(())
}

/// Stores the value of a parameter in a store of 12,427 bytes. It is refused, in this order, for `StoreLength`, for what names nothing
/// (`NoPointType`, `NoLogical`, `NoParameter`), for `Length` where it is not as long as the parameter, and for `OutOfRange`; then the store
/// stays as it was.
#[tactic(auto, unfolding(rules::specs::System::system_write), using(crate::proofs::Setting::short_store))]
pub fn system_write(store: &mut [u8], tlp: Tlp, value: &[u8]) -> Result<(), Refusal>
    ensures { record { outcome = outcome_of result; store = store.new } ≡ system_write gateway store.old tlp.point.0 tlp.logical.0 tlp.parameter.0 value.now }
{
    let store = store
        .as_mut_array::<{ store::LENGTH }>()
        .ok_or(Refusal::StoreLength)?;
    set(store, tlp, value)
}
