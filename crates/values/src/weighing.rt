//! A value of any kind but text, judged by its row, and with its mate. Of a text the walk over a list judges each byte.
ghost use Rattle.std.specs.Prelude.{◌≡◌, true, length};
ghost use Rattle.base.specs.Check.{from};
ghost use Rattle.base.specs.Lists.{both};
ghost use Rattle.faults.specs.Faults.{check_of};
ghost use Rattle.points.specs.Types.{gateway};
ghost use Rattle.points.specs.Columns.{row_at};
ghost use Rattle.values.specs.Kinds.{kind_allows, of_kind};
ghost use Rattle.values.specs.Judged.{in_range};
ghost use Rattle.values.specs.Weighed.{mated, weighed};
ghost use Rattle.values.specs.Weighable.{kind_long, Weighable};

use crate::pairs::pair_ok;
use crate::ranges::range_allows;
use crate::tlps::{tlp_of, tlp_ok};
use crate::{finite32, finite64, quad, unsigned};
use faults::{Fault, Refusal, require};
use points::{Kind, Logical, Spot};
use store::Store;

/// Whether bytes are a value of a kind. They are as many as values of that kind have.
#[tactic(auto, unfolding(crate::specs::Weighable::kind_long))]
fn kind_allows(kind: Kind, value: &[u8]) -> bool
    requires no_text { kind ≡ Kind.Text → ⊥ }
    requires long { kind_long kind (length value.now) ≡ true }
    ensures { result ≡ kind_allows gateway kind value.now }
{
    match kind {
        Kind::Text => unreachable!(),
        Kind::Unsigned | Kind::Signed => true,
        Kind::Single => finite32(unsigned(value)),
        Kind::Double => finite64(quad(value)),
        Kind::Tlp => tlp_ok(tlp_of(value)),
    }
}

/// Whether a value may stand where it is to: by its kind, by its range, and with its mate.
#[tactic(auto, using(crate::proofs::Table::lengths), unfolding(crate::specs::Kinds::of_kind, crate::specs::Judged::in_range))]
fn fits(store: &Store, row: usize, logical: Logical, value: &[u8]) -> bool
    requires { Weighable row logical.0 value.now }
    ensures { result ≡ both (of_kind gateway (row_at row).kind value.now) (both (in_range gateway (row_at row).range logical.0 value.now) (mated gateway store.now row logical.0 value.now)) }
{
    let kind = points::kind_at(row);
    let range = points::range_at(row);
    kind_allows(kind, value)
        && range_allows(range, logical, value)
        && pair_ok(store, row, logical, value)
}

/// `OutOfRange` at the place of a value that may not be stored.
#[tactic(auto, using(crate::proofs::Verdicts::weighed_if))]
pub fn weigh(
    store: &Store,
    spot: Spot,
    logical: Logical,
    value: &[u8],
    place: u8,
) -> Result<(), Fault>
    requires { Weighable spot.row logical.0 value.now }
    ensures { check_of result ≡ from place (weighed gateway store.now spot.row logical.0 value.now) }
{
    require(
        fits(store, spot.row, logical, value),
        Refusal::OutOfRange,
        place,
    )
}
