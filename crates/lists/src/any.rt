//! The three kinds of list, of any number of entries: a block of parameters, parameters that the data names, and those that a table's locations name.
ghost use Rattle.std.specs.Prelude.{◌≡◌, ◌+◌, ◌*◌, ◌/◌, ◌<◌, ◌≤◌, ℕ, List, length, drop, IfOk};
ghost use Rattle.points.specs.Types.{gateway};
ghost use Rattle.points.specs.Place.{Here};
ghost use Rattle.faults.specs.Faults.{check_of};
ghost use Rattle.rules.specs.Entries.{Source, block, named, located, spoken, locked_place, next};
ghost use Rattle.lists.specs.Walks.{caller_of, level_by, taken, tlp_at, entry_check, AnyStanding, Sits};

use crate::finding::{Entry, Places, find};
use crate::{Caller, Purpose};
use faults::{Fault, Refusal, require};
use points::{Count, Logical, Parameter, PointType, Tlp};

/// A list of any number of parameters, one entry after the other.
pub trait AnyEntries {
    /// Where the entries come from, with none taken.
    ghost source: { Self → Source };

    /// How many entries there are.
    ghost count: { Self → ℕ };

    /// How many entries there are.
    fn count(&self) -> usize
        ensures is { result ≡ count self.now }
        ensures standing { AnyStanding (source self.now) result };

    /// How many bytes of the data name each entry.
    fn step(&self) -> usize
        ensures is { result ≡ spoken (source self.now) }
        ensures small { result ≤ 3 };

    /// Where a fault says that the entry which begins at a place of the data is read-only.
    fn locked_place(&self, at: usize) -> usize
        ensures is { result ≡ locked_place (source self.now) at }
        ensures early { result ≤ at + 1 };

    /// Entry e, where what is left of the data begins at a place. The data has at most 255 bytes.
    fn entry(
        &self,
        who: Caller,
        purpose: Purpose,
        e: usize,
        bytes: &[u8],
        at: usize,
    ) -> Result<Entry, Fault>
        requires below { e < count self.now }
        requires short { length bytes.now ≤ 255 }
        requires within { at ≤ length bytes.now }
        ensures is { check_of result ≡ entry_check (next gateway (level_by purpose) (caller_of who) (taken e (source self.now)) (drop at bytes.now) at) }
        ensures inside { IfOk result (λ entry. Sits entry × (at + spoken (source self.now) ≤ length bytes.now)) };
}

/// The parameter that the three numbers from a place on name.
fn tlp_in(bytes: &[u8], at: usize) -> Tlp
    requires { at + 3 ≤ length bytes.now }
    ensures { result ≡ tlp_at bytes.now at }
{
    Tlp {
        point: PointType(bytes[at]),
        logical: Logical(bytes[at + 1]),
        parameter: Parameter(bytes[at + 2]),
    }
}

/// Entries that the data names: three numbers stand before each.
#[derive(Clone, Copy, Debug, PartialEq, Eq)]
pub struct AnyNamed {
    pub count: usize,
}

impl AnyEntries for AnyNamed {
    ghost source = { λ self. named };

    ghost count = { λ self. self.count };

    fn count(&self) -> usize {
        self.count
    }

    fn step(&self) -> usize {
        3
    }

    fn locked_place(&self, at: usize) -> usize {
        at
    }

    #[tactic(auto, unfolding(crate::specs::Walks::entry_check, base::specs::Check::checks), using(crate::proofs::Next::named_is))]
    fn entry(
        &self,
        who: Caller,
        purpose: Purpose,
        _e: usize,
        bytes: &[u8],
        at: usize,
    ) -> Result<Entry, Fault> {
        require(at + 3 <= bytes.len(), Refusal::Length, bytes.len() as u8)?;
        let places = Places {
            point: at as u8,
            logical: (at + 1) as u8,
            parameter: (at + 2) as u8,
        };
        find(who, purpose, tlp_in(bytes, at), places)
    }
}

/// A block of parameters of one logical, from one up: its type by index. All of them are of the build.
#[derive(Clone, Copy)]
pub struct AnyBlock {
    pub index: usize,
    pub logical: Logical,
    pub start: Parameter,
    pub count: Count,
    ghost of_build: { (e : ℕ) → e < count.0 → Here gateway index logical.0 (start.0 + e) },
}

impl AnyEntries for AnyBlock {
    ghost source = { λ self. block self.index self.logical.0 self.start.0 };

    ghost count = { λ self. self.count.0 };

    fn count(&self) -> usize {
        self.count.0 as usize
    }

    fn step(&self) -> usize {
        0
    }

    fn locked_place(&self, at: usize) -> usize {
        at
    }

    #[tactic(auto, unfolding(rules::specs::Entries::next, crate::specs::Walks::taken, crate::specs::Walks::entry_check, crate::specs::Walks::entry_of, base::specs::Check::checks), using(crate::proofs::Found::sits_here, crate::proofs::Found::height_small))]
    fn entry(
        &self,
        _who: Caller,
        _purpose: Purpose,
        e: usize,
        _bytes: &[u8],
        _at: usize,
    ) -> Result<Entry, Fault> {
        let parameter = Parameter((self.start.0 as usize + e) as u8);
        let spot = points::spot_at(self.index, self.logical, parameter);
        Ok(Entry {
            spot,
            logical: self.logical,
        })
    }
}

/// Entries that the locations of a table name, three bytes each.
#[derive(Clone, Copy)]
pub struct AnyLocated<'a> {
    pub locations: &'a [u8],
}

impl AnyEntries for AnyLocated<'_> {
    ghost source = { λ self. located self.locations.now };

    ghost count = { λ self. length self.locations.now / 3 };

    fn count(&self) -> usize {
        self.locations.len() / 3
    }

    fn step(&self) -> usize {
        0
    }

    fn locked_place(&self, _at: usize) -> usize {
        1
    }

    #[tactic(auto, using(crate::proofs::Next::located_is))]
    fn entry(
        &self,
        who: Caller,
        purpose: Purpose,
        e: usize,
        _bytes: &[u8],
        _at: usize,
    ) -> Result<Entry, Fault> {
        let places = Places {
            point: 1,
            logical: 1,
            parameter: 1,
        };
        find(who, purpose, tlp_in(self.locations, 3 * e), places)
    }
}
