//! A parameter read as a number: for Rust as the number that it says, for C as its bits with their kind.
ghost use Rattle.std.specs.Prelude.{◌≡◌, true, length};
ghost use Rattle.faults.specs.Faults.{number_of, refusal_check};
ghost use Rattle.points.specs.Types.{gateway};
ghost use Rattle.values.specs.Number.{number_read, raw_read};
ghost use Rattle.values.specs.Bits.{bits_of, bits_read, number_missing};
ghost use Rattle.values.specs.Raws.{code_of, raw_check, KindsAreToldApart, RawsAreToldApart};
ghost use Rattle.values.specs.Weighable.{kind_long};

use crate::{double, quad, signed, single, unsigned};
use faults::Refusal;
use points::{Kind, Missing, Tlp};
use store::Store;

/// A parameter read as a number keeps which kind it is.
#[derive(Clone, Copy, Debug, PartialEq)]
pub enum Number {
    Unsigned(u32),
    Signed(i8),
    Single(f32),
    Double(f64),
}

/// Which of the four a number is. The discriminant is what C is told.
#[derive(Clone, Copy, Debug, PartialEq, Eq)]
pub enum NumberKind {
    Unsigned = 0,
    Signed = 1,
    Single = 2,
    Double = 3,
}

impl NumberKind {
    /// What C is told for it.
    pub fn code(self) -> u8
        ensures { result ≡ code_of self }
    {
        self as u8
    }
}

/// A number as its bits are stored, zeros above them, with its kind.
#[derive(Clone, Copy, Debug, PartialEq, Eq)]
pub struct Raw {
    pub kind: NumberKind,
    pub bits: u64,
}

/// The bits of a number as they are stored, by its kind. The widths are what both readings go by.
#[derive(Clone, Copy)]
enum Bits {
    Unsigned(u32),
    Signed(u8),
    Single(u32),
    Double(u64),
}

/// Text and TLP are no numbers: `OutOfRange`.
#[tactic(auto, using(crate::proofs::Widths::le_one), unfolding(crate::specs::Bits::bits_of, crate::specs::Weighable::kind_long))]
fn bits_of(kind: Kind, value: &[u8]) -> Result<Bits, Refusal>
    requires { kind_long kind (length value.now) ≡ true }
    ensures { refusal_check result ≡ bits_of kind value.now }
{
    match kind {
        Kind::Unsigned => Ok(Bits::Unsigned(unsigned(value))),
        Kind::Signed => Ok(Bits::Signed(value[0])),
        Kind::Single => Ok(Bits::Single(unsigned(value))),
        Kind::Double => Ok(Bits::Double(quad(value))),
        Kind::Text | Kind::Tlp => Err(Refusal::OutOfRange),
    }
}

/// Which number of a parameter names nothing, as a refusal.
fn refusal_of(missing: Missing) -> Refusal
    ensures { number_of result ≡ number_missing missing }
{
    match missing {
        Missing::NoPointType => Refusal::NoPointType,
        Missing::NoLogical => Refusal::NoLogical,
        Missing::NoParameter => Refusal::NoParameter,
    }
}

/// The bits of a parameter of a whole store: refused by what the TLP lacks, then where they are no number.
#[tactic(auto, using(crate::proofs::Table::kind_length, crate::proofs::Read::bits_cases))]
fn bits_held(store: &Store, tlp: Tlp) -> Result<Bits, Refusal>
    ensures { refusal_check result ≡ bits_read gateway store.now tlp.point.0 tlp.logical.0 tlp.parameter.0 }
{
    let spot = points::locate(tlp).map_err(|missing| refusal_of(missing))?;
    bits_of(points::kind_at(spot.row), store::value_in(store, spot))
}

/// The one reading: `StoreLength` first.
#[tactic(auto, using(crate::proofs::Read::bits_cases))]
fn bits_read(store: &[u8], tlp: Tlp) -> Result<Bits, Refusal>
    ensures { refusal_check result ≡ bits_read gateway store.now tlp.point.0 tlp.logical.0 tlp.parameter.0 }
{
    let store: &Store = store.as_array().ok_or(Refusal::StoreLength)?;
    bits_held(store, tlp)
}

/// A parameter as a number. Refused with `StoreLength`, `NoPointType`, `NoLogical`, `NoParameter`, or `OutOfRange` for text and TLP, in that order.
#[tactic(auto, using(crate::proofs::Read::number_bits), unfolding(base::specs::Check::checks))]
pub fn number_read(store: &[u8], tlp: Tlp) -> Result<Number, Refusal>
    ensures { refusal_check result ≡ number_read gateway store.now tlp.point.0 tlp.logical.0 tlp.parameter.0 }
{
    Ok(match bits_read(store, tlp)? {
        Bits::Unsigned(n) => Number::Unsigned(n),
        Bits::Signed(byte) => Number::Signed(signed(byte)),
        Bits::Single(n) => Number::Single(single(n)),
        Bits::Double(n) => Number::Double(double(n)),
    })
}

/// The same for C: which kind it is, and its bits as they are stored.
#[tactic(auto, using(crate::proofs::Read::raw_bits), unfolding(base::specs::Check::checks))]
pub fn raw_read(store: &[u8], tlp: Tlp) -> Result<Raw, Refusal>
    ensures { raw_check result ≡ raw_read gateway store.now tlp.point.0 tlp.logical.0 tlp.parameter.0 }
{
    let (kind, bits) = match bits_read(store, tlp)? {
        Bits::Unsigned(n) => (NumberKind::Unsigned, n as u64),
        Bits::Signed(byte) => (NumberKind::Signed, byte as u64),
        Bits::Single(n) => (NumberKind::Single, n as u64),
        Bits::Double(n) => (NumberKind::Double, n),
    };
    Ok(Raw { kind, bits })
}

/// No two kinds have one code, so what is said of the reading for C, as a check of the rules, leaves no choice of its result.
#[tactic(auto, using(crate::proofs::Apart::kinds_apart, crate::proofs::Apart::raws_apart))]
pub fn kinds_are_told_apart()
    ensures kinds { KindsAreToldApart }
    ensures raws { RawsAreToldApart }
{}
