//! What the columns say as numbers: the bounds of a value's range, and what a fill leaves.
ghost use Rattle.std.specs.Prelude.{◌≡◌, ◌-◌, ◌^◌, ◌<◌, ◌≤◌};
ghost use Rattle.points.specs.Columns.{row_at, row_least, row_most, row_figure};

use crate::{Initial, Kind, Range, default_at, kind_at, length_at, range_at};

/// The least that a value's range allows; 0 where it is no stretch of numbers.
pub fn least_at(row: usize) -> u32
    requires { row < 175 }
    ensures { result ≡ row_least (row_at row) }
{
    match range_at(row) {
        Range::Between { least, .. } => least,
        Range::Any | Range::Status | Range::Rate | Range::Size | Range::Number => 0,
    }
}

// The most that so many bytes say.
fn most_in(len: u8) -> u32
    requires { len ≤ 4 }
    ensures { result ≡ 256 ^ len - 1 }
{
    match len {
        0 => 0,
        1 => 0xff,
        2 => 0xffff,
        3 => 0x00ff_ffff,
        _ => 0xffff_ffff,
    }
}

/// The most that an unsigned value's range allows: what its bytes say at most, where the range is any, and 240 of a size. It is 0 of a sample rate, and of each other kind.
#[tactic(auto, using(crate::proofs::Tables::unsigned_short))]
pub fn most_at(row: usize) -> u32
    requires { row < 175 }
    ensures { result ≡ row_most (row_at row) }
{
    if kind_at(row) != Kind::Unsigned {
        return 0;
    }
    match range_at(row) {
        Range::Any => most_in(length_at(row)),
        Range::Between { most, .. } => most,
        Range::Size => 240,
        Range::Status | Range::Rate | Range::Number => 0,
    }
}

/// The number that a fill leaves; 0 where it leaves a text, or what depends on the logical.
pub fn figure_at(row: usize) -> u32
    requires { row < 175 }
    ensures { result ≡ row_figure (row_at row) }
{
    match default_at(row) {
        Initial::Figure(figure) => figure,
        Initial::Words | Initial::SoftPoint | Initial::Segment | Initial::FullFirst => 0,
    }
}
