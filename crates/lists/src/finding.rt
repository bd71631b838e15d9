//! One parameter that an entry names, found, or the fault of what is wrong with it.
ghost use Rattle.std.specs.Prelude.{◌≡◌, IfOk};
ghost use Rattle.points.specs.Types.{gateway};
ghost use Rattle.faults.specs.Faults.{check_of};
ghost use Rattle.rules.specs.Entries.{found};
ghost use Rattle.lists.specs.Walks.{caller_of, level_by, fault_of, entry_check, Sits};

use crate::{Caller, Purpose};
use faults::{Fault, Refusal, require};
use points::{Logical, Missing, Spot, Tlp};

/// The parameter that an entry names: where it lies in the store, and its logical.
#[derive(Clone, Copy, Debug, PartialEq, Eq)]
pub struct Entry {
    pub spot: Spot,
    pub logical: Logical,
}

/// The places of the data that a fault of an entry names.
#[derive(Clone, Copy, Debug, PartialEq, Eq)]
pub(crate) struct Places {
    pub point: u8,
    pub logical: u8,
    pub parameter: u8,
}

impl Places {
    /// The fault of a number that names nothing.
    fn fault(self, missing: Missing) -> Fault
        ensures { result ≡ fault_of self missing }
    {
        let (refusal, place) = match missing {
            Missing::NoPointType => (Refusal::NoPointType, self.point),
            Missing::NoLogical => (Refusal::NoLogical, self.logical),
            Missing::NoParameter => (Refusal::NoParameter, self.parameter),
        };
        Fault { refusal, place }
    }
}

/// Type, logical, parameter, level; the level's place is the type's.
#[tactic(auto, unfolding(points::specs::There::there, base::specs::Check::checks), using(crate::proofs::Found::found_is, crate::proofs::Found::of_segment))]
pub(crate) fn find(who: Caller, purpose: Purpose, tlp: Tlp, places: Places) -> Result<Entry, Fault>
    ensures is { check_of result ≡ entry_check (found gateway (level_by purpose) (caller_of who) tlp.point.0 tlp.logical.0 tlp.parameter.0 places.point places.logical places.parameter) }
    ensures inside { IfOk result Sits }
{
    let spot = points::locate(tlp).map_err(|missing| places.fault(missing))?;
    require(
        who.reaches(purpose.level_at(spot.row)),
        Refusal::LevelTooLow,
        places.point,
    )?;
    Ok(Entry {
        spot,
        logical: tlp.logical,
    })
}
