//! The calls that the firmware makes. The crate gateway_c exports each of them to C, under the same name.
#![tactic(auto)]

ghost use Rattle.std.specs.Prelude.{◌≡◌};
ghost use Rattle.points.specs.Types.{gateway};
ghost use Rattle.faults.specs.Faults.{outcome_of};
ghost use Rattle.frame.specs.Address.{address};
ghost use Rattle.values.specs.Number.{raw_read, telling};
ghost use Rattle.rules.specs.Answer.{answer};
ghost use Rattle.rules.specs.System.{system_write, fill, ticking};

use clock::Clock;
use faults::Refusal;
use frame::Address;
use points::{Logical, Parameter, PointType, Tlp};

/// The outcome that C is told: 0 where the call is not refused. Only here does a call's end become a number for C.
fn outcome(done: Result<(), Refusal>) -> u8
    ensures { result ≡ outcome_of done }
{
    match done {
        Ok(()) => 0,
        Err(refusal) => refusal.outcome(),
    }
}

/// The parameter that C's three numbers name.
fn tlp(t: u8, logical: u8, parameter: u8) -> Tlp
    ensures point { result.point.0 ≡ t }
    ensures logical { result.logical.0 ≡ logical }
    ensures parameter { result.parameter.0 ≡ parameter }
{
    Tlp {
        point: PointType(t),
        logical: Logical(logical),
        parameter: Parameter(parameter),
    }
}

/// Answers one frame. `unit` and `group` are our own address, `level` is 0 to 3: what whoever asks may do.
///
/// Outcome 0 is acted on, 1 to 8 is silent, 20 to 31 is refused with an error frame. `length` is how many bytes of the reply are to be sent, 0 where none
/// are. Store and clock change with outcome 0 alone, and of the reply space the first `length` bytes at most.
pub fn tyurkanim_request(
    frame: &[u8],
    store: &mut [u8],
    clock: &mut [u8; 7],
    unit: u8,
    group: u8,
    level: u8,
    reply: &mut [u8],
    length: &mut u16,
) -> u8
    ensures { record { outcome = result; count = length.new; store = store.new; clock = clock.new; reply = reply.new }
        ≡ answer gateway (record { frame = frame.now; us = address unit group; level = level }) (record { store = store.old; clock = clock.old }) reply.old }
{
    let us = Address { unit, group };
    let ended = request::request(us, level, frame, store, clock, reply);
    *length = ended.count;
    outcome(ended.outcome)
}

/// Stores one value, read-only or not, whatever the level: outcome 0. Refused, with the store as it was: 2, 22, 23, 24, 21 for a value of another length,
/// 27, in that order.
pub fn tyurkanim_system_write(
    store: &mut [u8],
    t: u8,
    logical: u8,
    parameter: u8,
    value: &[u8],
) -> u8
    ensures { record { outcome = result; store = store.new } ≡ system_write gateway store.old t logical parameter value.now }
{
    outcome(system::system_write(store, tlp(t, logical, parameter), value))
}

/// Fills the store with the defaults: outcome 0. Refused, with the store as it was: 2 where it has another length.
pub fn tyurkanim_fill(store: &mut [u8]) -> u8
    ensures { record { outcome = result; store = store.new } ≡ fill gateway store.old }
{
    outcome(fill::fill(store))
}

/// The clock's second: what it shows becomes the next moment.
#[tactic(auto, using(crate::proofs::Ticks::clock_over), unfolding(rules::specs::System::ticking, clock::specs::Moments::tick))]
fn tick(clock: &mut [u8; 7]) -> Result<(), Refusal>
    ensures { record { outcome = outcome_of result; clock = clock.new } ≡ ticking clock.old }
{
    let later = Clock::of_bytes(clock).next()?;
    later.put_bytes(clock);
    Ok(())
}

/// Moves the clock on by one second: outcome 0. Refused, with the clock as it was: 3 where it shows no moment. The last moment of 2099 stays, with 0.
pub fn tyurkanim_tick(clock: &mut [u8; 7]) -> u8
    ensures { record { outcome = result; clock = clock.new } ≡ ticking clock.old }
{
    outcome(tick(clock))
}

/// A number told: its kind and its bits, which a refusal leaves as they were.
#[tactic(auto, unfolding(values::specs::Number::telling, values::specs::Raws::raw_check))]
fn tell_number(store: &[u8], tlp: Tlp, kind: &mut u8, bits: &mut u64) -> Result<(), Refusal>
    ensures { record { outcome = outcome_of result; kind = kind.new; bits = bits.new }
        ≡ telling kind.old bits.old (raw_read gateway store.now tlp.point.0 tlp.logical.0 tlp.parameter.0) }
{
    let raw = values::raw_read(store, tlp)?;
    *kind = raw.kind.code();
    *bits = raw.bits;
    Ok(())
}

/// Reads one parameter as a number: outcome 0. `kind` is 0 for an unsigned, 1 for a signed, 2 for a single, 3 for a double; `bits` are as they are stored,
/// zeros above them. Refused, with both as they were: 2, 22, 23, 24, and 27 for text and TLP, in that order.
pub fn tyurkanim_number_read(
    store: &[u8],
    t: u8,
    logical: u8,
    parameter: u8,
    kind: &mut u8,
    bits: &mut u64,
) -> u8
    ensures { record { outcome = result; kind = kind.new; bits = bits.new }
        ≡ telling kind.old bits.old (raw_read gateway store.now t logical parameter) }
{
    outcome(tell_number(store, tlp(t, logical, parameter), kind, bits))
}
