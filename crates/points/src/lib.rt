//! The point types: a row for each parameter, and where each lies in the store.
#![tactic(auto)]

mod columns;
mod figures;

ghost use Rattle.std.specs.Prelude.{◌≡◌, ◌+◌, ◌<◌, ◌≤◌, get_or, MatchOption, IfOk};
ghost use Rattle.points.specs.Types.{index_of, point, height, logicals, gateway};
ghost use Rattle.points.specs.Place.{first, base, each, offsets, place_of, Here, spot_of, IsInside};
ghost use Rattle.points.specs.Columns.{row_at, kind_of, access_of, range_of, initial_of, read_levels, write_levels};

pub use figures::{figure_at, least_at, most_at};

/// A point type's number.
#[derive(Clone, Copy, Debug, PartialEq, Eq, PartialOrd, Ord)]
pub struct PointType(pub u8);

/// A logical's number within its point type.
#[derive(Clone, Copy, Debug, PartialEq, Eq, PartialOrd, Ord)]
pub struct Logical(pub u8);

/// A parameter's number within its logical.
#[derive(Clone, Copy, Debug, PartialEq, Eq, PartialOrd, Ord)]
pub struct Parameter(pub u8);

/// How many parameters.
#[derive(Clone, Copy, Debug, PartialEq, Eq, PartialOrd, Ord)]
pub struct Count(pub u8);

/// The three numbers that name a parameter.
#[derive(Clone, Copy, Debug, PartialEq, Eq)]
pub struct Tlp {
    pub point: PointType,
    pub logical: Logical,
    pub parameter: Parameter,
}

impl Tlp {
    /// The three zeros, by which a value of kind TLP names nothing.
    pub const NONE: Tlp = Tlp {
        point: PointType(0),
        logical: Logical(0),
        parameter: Parameter(0),
    };
}

/// Which of the three numbers names nothing.
#[derive(Clone, Copy, Debug, PartialEq, Eq)]
pub enum Missing {
    NoPointType,
    NoLogical,
    NoParameter,
}

/// A parameter of the build: its row, where it begins in the store, how many bytes it has.
#[derive(Clone, Copy, Debug, PartialEq, Eq)]
pub struct Spot {
    pub row: usize,
    pub begin: usize,
    pub len: usize,
}

/// What a value is.
#[derive(Clone, Copy, Debug, PartialEq, Eq)]
pub enum Kind {
    Text,
    Unsigned,
    Signed,
    Single,
    Double,
    Tlp,
}

/// Who may write a value: everybody, the system alone, or the system alone on logical 0.
#[derive(Clone, Copy, Debug, PartialEq, Eq)]
pub enum Access {
    ReadWrite,
    ReadOnly,
    ReadOnlyFirst,
}

/// What a value may be: whatever its kind allows, a stretch of numbers, a status, a sample rate, a segment's size, a TLP of a number.
#[derive(Clone, Copy, Debug, PartialEq, Eq)]
pub enum Range {
    Any,
    Between { least: u32, most: u32 },
    Status,
    Rate,
    Size,
    Number,
}

/// What a fill leaves: a number, a text of the row's own, or what depends on the logical: a soft point's label, a segment's description, 240 on logical 0 alone.
#[derive(Clone, Copy, Debug, PartialEq, Eq)]
pub enum Initial {
    Figure(u32),
    Words,
    SoftPoint,
    Segment,
    FullFirst,
}

// The columns by row. `locate` and `spot_at` answer rows below 175. That stands in a clause and not in the type, so that the rules' definitions can build a spot of plain numbers.
/// How many bytes a value has.
#[tactic(auto, using(crate::proofs::Tables::length_column), unfolding(crate::specs::Columns::all_rows))]
pub fn length_at(row: usize) -> u8
    requires { row < 175 }
    ensures { result ≡ (row_at row).len }
{
    columns::lengths::LENGTHS[row]
}

/// What a value is.
#[tactic(auto, using(crate::proofs::Tables::kind_column), unfolding(crate::specs::Columns::all_rows))]
pub fn kind_at(row: usize) -> Kind
    requires { row < 175 }
    ensures { result ≡ kind_of (row_at row).kind }
{
    columns::kinds::KINDS[row]
}

/// Who may write a value.
#[tactic(auto, using(crate::proofs::Tables::access_column), unfolding(crate::specs::Columns::all_rows))]
pub fn access_at(row: usize) -> Access
    requires { row < 175 }
    ensures { result ≡ access_of (row_at row).access }
{
    columns::access::ACCESS[row]
}

/// What a value may be.
#[tactic(auto, using(crate::proofs::Tables::range_column), unfolding(crate::specs::Columns::all_rows))]
pub fn range_at(row: usize) -> Range
    requires { row < 175 }
    ensures { result ≡ range_of (row_at row).range }
{
    columns::ranges::RANGES[row]
}

/// What a fill leaves.
#[tactic(auto, using(crate::proofs::Tables::initial_column), unfolding(crate::specs::Columns::all_rows))]
pub fn default_at(row: usize) -> Initial
    requires { row < 175 }
    ensures { result ≡ initial_of (row_at row).default }
{
    columns::initials::INITIALS[row]
}

/// The level that reads a value.
#[tactic(auto, unfolding(crate::specs::Columns::read_levels))]
pub fn read_level_at(row: usize) -> u8
    requires { row < 175 }
    ensures { result ≡ get_or read_levels row 0 }
{
    columns::read_levels::READ_LEVELS[row]
}

/// The level that writes a value.
#[tactic(auto, unfolding(crate::specs::Columns::write_levels))]
pub fn write_level_at(row: usize) -> u8
    requires { row < 175 }
    ensures { result ≡ get_or write_levels row 0 }
{
    columns::write_levels::WRITE_LEVELS[row]
}

/// Where a value begins within its logical.
#[tactic(auto, unfolding(crate::specs::Place::offsets))]
fn offset_at(row: usize) -> u16
    requires { row < 175 }
    ensures { result ≡ get_or offsets row 0 }
{
    columns::offsets::OFFSETS[row]
}

// The columns by a point type's index.
/// How many logicals the build has.
#[tactic(auto, unfolding(crate::specs::Types::logicals, crate::specs::Types::gateway))]
pub fn logicals_of(i: usize) -> u8
    requires { i < 6 }
    ensures { result ≡ logicals gateway i }
{
    columns::LOGICALS[i]
}

/// How many parameters a logical has.
#[tactic(auto, unfolding(crate::specs::Types::point))]
pub fn height_of(i: usize) -> u8
    requires { i < 6 }
    ensures { result ≡ height (point i) }
{
    columns::HEIGHTS[i]
}

/// The row of its first parameter.
#[tactic(auto, unfolding(crate::specs::Place::first))]
pub fn first_of(i: usize) -> u8
    requires { i < 6 }
    ensures { result ≡ first i }
{
    columns::FIRSTS[i]
}

/// Where its logicals begin in the store.
#[tactic(auto, using(crate::proofs::Tables::base_column), unfolding(crate::specs::Types::gateway, crate::specs::Place::areas))]
fn base_of(i: usize) -> u16
    requires { i < 6 }
    ensures { result ≡ base gateway i }
{
    columns::BASES[i]
}

/// How many bytes a logical has.
#[tactic(auto, unfolding(crate::specs::Types::point))]
fn each_of(i: usize) -> u16
    requires { i < 6 }
    ensures { result ≡ each (point i) }
{
    columns::EACHES[i]
}

/// The index of a point type, if it is one.
#[tactic(auto, unfolding(crate::specs::Types::index_of))]
pub fn index_of(point: PointType) -> Option<usize>
    ensures { MatchOption result (6 ≤ index_of point.0) (λ i. (i ≡ index_of point.0) × (i < 6)) }
{
    match point.0 {
        97 => Some(0),
        98 => Some(1),
        99 => Some(2),
        122 => Some(3),
        123 => Some(4),
        124 => Some(5),
        _ => None,
    }
}

/// A parameter that the build has: parameter and logical of the point type with an index.
#[tactic(auto, using(crate::proofs::Cases::in_store, crate::proofs::Cases::spot_is))]
pub fn spot_at(index: usize, logical: Logical, parameter: Parameter) -> Spot
    requires { Here gateway index logical.0 parameter.0 }
    ensures is { result ≡ spot_of gateway index logical.0 parameter.0 }
    ensures inside { IsInside result }
{
    let row = first_of(index) as usize + parameter.0 as usize;
    let start = base_of(index) as usize + logical.0 as usize * each_of(index) as usize;
    Spot {
        row,
        begin: start + offset_at(row) as usize,
        len: length_at(row) as usize,
    }
}

/// A parameter by its three numbers, or which of them names nothing: the point type is judged first, then the logical, then the parameter.
#[tactic(auto, using(crate::proofs::Cases::no_type, crate::proofs::Cases::of_type))]
pub fn locate(tlp: Tlp) -> Result<Spot, Missing>
    ensures is { result ≡ place_of gateway tlp.point.0 tlp.logical.0 tlp.parameter.0 }
    ensures inside { IfOk result IsInside }
{
    let Some(index) = index_of(tlp.point) else {
        return Err(Missing::NoPointType);
    };
    if logicals_of(index) <= tlp.logical.0 {
        return Err(Missing::NoLogical);
    }
    if height_of(index) <= tlp.parameter.0 {
        return Err(Missing::NoParameter);
    }
    Ok(spot_at(index, tlp.logical, tlp.parameter))
}
