//! The three kinds of list, of at most 255 entries; a block lies in the build even if it has none. Each hands its calls on to the list of its kind in `any`.
ghost use Rattle.std.specs.Prelude.{◌≡◌, ◌+◌, ◌/◌, ◌<◌, ◌≤◌, ℕ, length, drop, IfOk};
ghost use Rattle.points.specs.Types.{gateway, logicals, point, height};
ghost use Rattle.faults.specs.Faults.{check_of};
ghost use Rattle.rules.specs.Entries.{Source, block, named, located, spoken, locked_place, next};
ghost use Rattle.lists.specs.Walks.{caller_of, level_by, taken, entry_check, Standing, Sits};

use crate::any::{AnyBlock, AnyEntries, AnyLocated, AnyNamed};
use crate::finding::Entry;
use crate::{Caller, Purpose};
use faults::Fault;
use points::{Count, Logical, Parameter};

/// A list of at most 255 parameters, one entry after the other.
pub trait Entries {
    /// Where the entries come from, with none taken.
    ghost source: { Self → Source };

    /// How many entries there are.
    ghost count: { Self → ℕ };

    /// How many entries there are.
    fn count(&self) -> usize
        ensures is { result ≡ count self.now }
        ensures few { result ≤ 255 }
        ensures standing { Standing (source self.now) result };

    /// How many bytes of the data name each entry.
    fn step(&self) -> usize
        ensures is { result ≡ spoken (source self.now) }
        ensures small { result ≤ 3 };

    /// Where a fault says that the entry which begins at a place of the data is read-only.
    fn locked_place(&self, at: usize) -> usize
        ensures is { result ≡ locked_place (source self.now) at }
        ensures early { result ≤ at + 1 };

    /// Entry e, where what is left of the data begins at a place. The data has at most 255 bytes.
    fn entry(
        &self,
        who: Caller,
        purpose: Purpose,
        e: usize,
        bytes: &[u8],
        at: usize,
    ) -> Result<Entry, Fault>
        requires below { e < count self.now }
        requires short { length bytes.now ≤ 255 }
        requires within { at ≤ length bytes.now }
        ensures is { check_of result ≡ entry_check (next gateway (level_by purpose) (caller_of who) (taken e (source self.now)) (drop at bytes.now) at) }
        ensures inside { IfOk result (λ entry. Sits entry × (at + spoken (source self.now) ≤ length bytes.now)) };
}

/// A list of at most 255 entries is one of any number.
impl<E: Entries> AnyEntries for E {
    ghost source = { λ self. E.source self };

    ghost count = { λ self. E.count self };

    #[tactic(auto, using(crate::proofs::Stood::standing_any))]
    fn count(&self) -> usize {
        Entries::count(self)
    }

    fn step(&self) -> usize {
        Entries::step(self)
    }

    fn locked_place(&self, at: usize) -> usize {
        Entries::locked_place(self, at)
    }

    fn entry(
        &self,
        who: Caller,
        purpose: Purpose,
        e: usize,
        bytes: &[u8],
        at: usize,
    ) -> Result<Entry, Fault> {
        Entries::entry(self, who, purpose, e, bytes, at)
    }
}

/// At most 255 entries that the data names: three numbers stand before each.
#[derive(Clone, Copy, Debug, PartialEq, Eq)]
pub struct Named {
    pub count: Count,
}

impl From<Named> for AnyNamed {
    ghost from_gives = { λ named any. (any.count ≡ named.count.0) × (any.count ≤ 255) };

    fn from(named: Named) -> AnyNamed {
        AnyNamed {
            count: usize::from(named.count.0),
        }
    }
}

impl Entries for Named {
    ghost source = { λ self. named };

    ghost count = { λ self. self.count.0 };

    fn count(&self) -> usize {
        AnyNamed::from(*self).count()
    }

    fn step(&self) -> usize {
        AnyNamed::from(*self).step()
    }

    fn locked_place(&self, at: usize) -> usize {
        AnyNamed::from(*self).locked_place(at)
    }

    fn entry(
        &self,
        who: Caller,
        purpose: Purpose,
        e: usize,
        bytes: &[u8],
        at: usize,
    ) -> Result<Entry, Fault> {
        AnyNamed::from(*self).entry(who, purpose, e, bytes, at)
    }
}

/// A block of parameters of one logical, from one up: its type by index. It lies in the build, even where it has none.
#[derive(Clone, Copy)]
pub struct Block {
    pub index: usize,
    pub logical: Logical,
    pub start: Parameter,
    pub count: Count,
    ghost of_type: { index < 6 },
    ghost of_logical: { logical.0 < logicals gateway index },
    ghost of_parameters: { start.0 + count.0 ≤ height (point index) },
}

impl From<Block> for AnyBlock {
    ghost from_gives = { λ block any. (any.index ≡ block.index) × (any.logical ≡ block.logical) × (any.start ≡ block.start) × (any.count ≡ block.count) };

    fn from(block: Block) -> AnyBlock {
        AnyBlock {
            index: block.index,
            logical: block.logical,
            start: block.start,
            count: block.count,
        }
    }
}

impl Entries for Block {
    ghost source = { λ self. block self.index self.logical.0 self.start.0 };

    ghost count = { λ self. self.count.0 };

    fn count(&self) -> usize {
        AnyBlock::from(*self).count()
    }

    fn step(&self) -> usize {
        AnyBlock::from(*self).step()
    }

    fn locked_place(&self, at: usize) -> usize {
        AnyBlock::from(*self).locked_place(at)
    }

    fn entry(
        &self,
        who: Caller,
        purpose: Purpose,
        e: usize,
        bytes: &[u8],
        at: usize,
    ) -> Result<Entry, Fault> {
        AnyBlock::from(*self).entry(who, purpose, e, bytes, at)
    }
}

/// Entries that the locations of a table name, three bytes each. A table has 44 locations at most.
#[derive(Clone, Copy)]
pub struct Located<'a> {
    pub locations: &'a [u8],
    ghost room: { length locations.now ≤ 132 },
}

impl<'a> From<Located<'a>> for AnyLocated<'a> {
    ghost from_gives = { λ located any. any.locations.now ≡ located.locations.now };

    fn from(located: Located<'a>) -> AnyLocated<'a> {
        AnyLocated {
            locations: located.locations,
        }
    }
}

impl Entries for Located<'_> {
    ghost source = { λ self. located self.locations.now };

    ghost count = { λ self. length self.locations.now / 3 };

    fn count(&self) -> usize {
        AnyLocated::from(*self).count()
    }

    fn step(&self) -> usize {
        AnyLocated::from(*self).step()
    }

    fn locked_place(&self, at: usize) -> usize {
        AnyLocated::from(*self).locked_place(at)
    }

    fn entry(
        &self,
        who: Caller,
        purpose: Purpose,
        e: usize,
        bytes: &[u8],
        at: usize,
    ) -> Result<Entry, Fault> {
        AnyLocated::from(*self).entry(who, purpose, e, bytes, at)
    }
}
