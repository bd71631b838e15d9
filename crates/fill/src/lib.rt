//! The fill: the default of each parameter, written into the store.
#![tactic(auto)]

ghost use Rattle.std.specs.Prelude.{ℕ, ◌≡◌, ◌+◌, ◌<◌, ◌++◌, length};
ghost use Rattle.base.specs.Bytes.{bytes, padded};
ghost use Rattle.points.specs.Types.{gateway, logicals};
ghost use Rattle.points.specs.Columns.{row_at};
ghost use Rattle.points.specs.Place.{IsInside, offset};
ghost use Rattle.store.specs.Fresh.{start_of, digits, two_digits};
ghost use Rattle.faults.specs.Faults.{outcome_of};
ghost use Rattle.rules.specs.System.{fill};
ghost use Rattle.fill.specs.Steps.{renewed, row_words, segment_text};

use faults::Refusal;
use points::{Initial, Logical, Parameter, Spot};
use store::Store;

// A text with spaces behind it, or as much of it as there is room for.
#[tactic(auto, using(crate::proofs::Writing::padded_parts))]
fn put_text(value: &mut [u8], text: &[u8])
    ensures { value.new ≡ padded (length value.old) text.now }
{
    let shown = text.len().min(value.len());
    let (front, rest) = value.split_at_mut(shown);
    front.copy_from_slice(&text[..shown]);
    rest.fill(b' ');
}

// A number, least significant byte first.
#[tactic(auto, using(crate::proofs::Writing::figure_more, crate::proofs::Writing::figure_all))]
fn put_figure(value: &mut [u8], figure: u32)
    ensures { value.new ≡ bytes (length value.old) figure }
{
    let mut rest = figure;
    for byte in value.iter_mut() {
        *byte = (rest % 256) as u8;
        rest /= 256;
    }
}

// A number below 100.
fn two_digits(number: u8) -> [u8; 2]
    ensures { result ≡ two_digits number }
{
    [b'0' + number / 10, b'0' + number % 10]
}

#[tactic(auto, using(crate::proofs::Writing::label))]
fn labelled(name: &[u8; 8], digits: [u8; 2]) -> [u8; 10]
    ensures { result ≡ name.now ++ digits }
{
    let mut text = [b' '; 10];
    text[..8].copy_from_slice(name);
    text[8..].copy_from_slice(&digits);
    text
}

// A name and a number below 100, with no leading zero: one digit has a space behind it, the first of those that pad the text.
#[tactic(auto, using(crate::proofs::Defaults::one_digit, crate::proofs::Defaults::two_digits_long))]
fn numbered(name: &[u8; 8], number: u8) -> [u8; 10]
    ensures { (n : ℕ) → padded n result ≡ padded n (name.now ++ digits number) }
{
    if number < 10 {
        return labelled(name, [b'0' + number, b' ']);
    }
    labelled(name, two_digits(number))
}

// "Segment XX": 01 to 12. Manual 3.4.35: logical 0 is "General 00".
fn segment_text(logical: Logical) -> [u8; 10]
    ensures { result ≡ segment_text logical.0 }
{
    if logical.0 == 0 {
        return *b"General 00";
    }
    labelled(b"Segment ", two_digits(logical.0))
}

// Manual 3.4.8: the tags of type 97, whose rows are the first ten. Every other text starts empty.
#[tactic(auto, using(crate::proofs::Defaults::tag, crate::proofs::Defaults::no_words))]
fn put_words(value: &mut [u8], row: usize)
    ensures { value.new ≡ padded (length value.old) (row_words (row_at row)) }
{
    if row < 10 {
        put_text(value, &numbered(b"Register", row as u8 + 1));
        return;
    }
    put_text(value, b"");
}

fn put_default(value: &mut [u8], spot: Spot, logical: Logical)
    requires inside { IsInside spot }
    requires long { length value.old ≡ spot.len }
    requires two_digits { logical.0 < 99 }
    ensures { value.new ≡ start_of logical.0 spot.len (row_at spot.row).default }
{
    match points::default_at(spot.row) {
        Initial::Figure(figure) => put_figure(value, figure),
        Initial::Words => put_words(value, spot.row),
        Initial::SoftPoint => put_text(value, &numbered(b"Soft Pt ", logical.0 + 1)),
        Initial::Segment => put_text(value, &segment_text(logical)),
        Initial::FullFirst => put_figure(value, if logical.0 == 0 { 240 } else { 0 }),
    }
}

// The parameters of one logical. "types ascending, logicals ascending, parameters ascending, unpadded"
#[tactic(auto, using(crate::proofs::Steps::renewed_none, crate::proofs::Steps::parameter_there, crate::proofs::Steps::logical_end, crate::proofs::Steps::logical_small))]
fn fill_logical(store: &mut Store, index: usize, logical: Logical)
    requires known { index < 6 }
    requires built { logical.0 < logicals gateway index }
    ensures { store.new ≡ renewed store.old (offset gateway index logical.0 0) (offset gateway index (logical.0 + 1) 0) }
{
    for parameter in 0..points::height_of(index) {
        let spot = points::spot_at(index, logical, Parameter(parameter));
        let value = &mut store[spot.begin..spot.begin + spot.len];
        put_default(value, spot, logical);
    }
}

#[tactic(auto, using(crate::proofs::Steps::renewed_none, crate::proofs::Steps::logical_turn, crate::proofs::Steps::type_end))]
fn fill_type(store: &mut Store, index: usize)
    requires { index < 6 }
    ensures { store.new ≡ renewed store.old (offset gateway index 0 0) (offset gateway (index + 1) 0 0) }
{
    for logical in 0..points::logicals_of(index) {
        fill_logical(store, index, Logical(logical));
    }
}

/// The default of every parameter, written into the store.
///
/// Refused, with the store as it was: `StoreLength` where it has not 12,427 bytes.
#[tactic(auto, using(crate::proofs::Steps::renewed_none, crate::proofs::Steps::store_begins, crate::proofs::Steps::type_turn, crate::proofs::Steps::store_ends, crate::proofs::Steps::filled, crate::proofs::Steps::refused))]
pub fn fill(store: &mut [u8]) -> Result<(), Refusal>
    ensures { record { outcome = outcome_of result; store = store.new } ≡ fill gateway store.old }
{
    let Some(store) = store.as_mut_array::<{ store::LENGTH }>() else {
        return Err(Refusal::StoreLength);
    };
    for index in 0..6usize {
        fill_type(store, index);
    }
    Ok(())
}
