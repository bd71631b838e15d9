//! The lists of parameters that requests have: what each entry names, and who may read or write it.
#![tactic(auto)]

pub mod any;
mod entries;
mod finding;
#[cfg(test)]
mod tests;

ghost use Rattle.std.specs.Prelude.{◌≡◌, ◌<◌};
ghost use Rattle.points.specs.Columns.{row_at};
ghost use Rattle.rules.specs.Entries.{reaches, may_write};
ghost use Rattle.lists.specs.Walks.{caller_of, level_at};

pub use entries::{Block, Entries, Located, Named};
pub use finding::Entry;
use points::{Access, Logical};

/// Who reads or writes: a request of a level, or the system, which has none and may write what is read-only.
#[derive(Clone, Copy, Debug, PartialEq, Eq)]
pub enum Caller {
    Request { level: u8 },
    System,
}

/// What a list is gone through for. Each point type has a level for either.
#[derive(Clone, Copy, Debug, PartialEq, Eq)]
pub enum Purpose {
    Read,
    Write,
}

impl Caller {
    /// Whether the caller has the level that is needed.
    pub(crate) fn reaches(self, needed: u8) -> bool
        ensures { result ≡ reaches (caller_of self) needed }
    {
        match self {
            Caller::Request { level } => needed <= level,
            Caller::System => true,
        }
    }

    /// Whether the caller may write the parameter of a row on a logical, whatever its level.
    pub fn may_write(self, row: usize, logical: Logical) -> bool
        requires { row < 175 }
        ensures { result ≡ may_write (caller_of self) (row_at row).access logical.0 }
    {
        match self {
            Caller::Request { .. } => match points::access_at(row) {
                Access::ReadWrite => true,
                Access::ReadOnly => false,
                Access::ReadOnlyFirst => logical.0 != 0,
            },
            Caller::System => true,
        }
    }
}

impl Purpose {
    /// The level that a row's type asks for.
    pub(crate) fn level_at(self, row: usize) -> u8
        requires { row < 175 }
        ensures { result ≡ level_at self row }
    {
        match self {
            Purpose::Read => points::read_level_at(row),
            Purpose::Write => points::write_level_at(row),
        }
    }
}
