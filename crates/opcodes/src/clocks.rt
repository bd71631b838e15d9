//! Opcodes 7 and 8: the clock is read, and set.

ghost use Rattle.std.specs.Prelude.{◌≡◌, ◌≤◌, ℕ, List, length};
ghost use Rattle.faults.specs.Faults.{check_of};
ghost use Rattle.rules.specs.Opcodes.{plan7, plan8};
ghost use Rattle.opcodes.specs.Moments.{moment_check};
ghost use Rattle.opcodes.specs.Done.{held, said, done, space_by, clock_by};

use crate::Request;
use clock::Clock;
use faults::{Fault, Refusal, require};
use frame::Reply;

/// Opcode 7: the clock's seven bytes and the weekday. The request has no data.
#[tactic(auto, unfolding(rules::specs::Opcodes::plan7, rules::specs::Lists::ends, rules::specs::Deeds::told, rules::specs::Deeds::shown, base::specs::Check::checks), using(crate::proofs::Told::two_told))]
pub fn read(
    request: &Request,
    clock: &[u8; 7],
    aloud: bool,
    reply: &mut Reply,
) -> Result<usize, Fault>
    ensures answer { (s : List ℕ) → check_of result ≡ said (plan7 (held s clock.now) request.now.bytes.now) }
    ensures space { (s : List ℕ) → reply.new ≡ space_by aloud s reply.old (plan7 (held s clock.now) request.now.bytes.now) }
{
    require(request.bytes.is_empty(), Refusal::Length, 0)?;
    if aloud {
        let weekday = Clock::of_bytes(clock).weekday();
        store::tell(reply, 6, clock);
        store::tell(reply, 13, &[weekday]);
    }
    Ok(8)
}

/// The numbers of a moment, each in its range. The day comes last, since how many days there are is known only of a month and a year that
/// are in theirs.
#[tactic(auto, unfolding(crate::specs::Moments::moment_check, base::specs::Check::checks))]
fn check_moment(moment: Clock) -> Result<(), Fault>
    ensures { check_of result ≡ moment_check moment }
{
    require(moment.second < 60, Refusal::InvalidDate, 0)?;
    require(moment.minute < 60, Refusal::InvalidDate, 1)?;
    require(moment.hour < 24, Refusal::InvalidDate, 2)?;
    require((1..=12).contains(&moment.month), Refusal::InvalidDate, 4)?;
    let years = Clock::FIRST_YEAR..=Clock::LAST_YEAR;
    require(years.contains(&moment.year), Refusal::InvalidDate, 5)?;
    let days = Clock::days_of_month(moment.year, moment.month);
    let is_day = 1 <= moment.day && moment.day <= days;
    require(is_day, Refusal::InvalidDate, 3)
}

/// Opcode 8: second, minute, hour, day, month, and the year in two bytes.
#[tactic(auto, unfolding(base::specs::Check::checks), using(crate::proofs::Moments::plan8_ranged))]
pub fn set(request: &Request, clock: &mut [u8; 7]) -> Result<(), Fault>
    ensures answer { check_of result ≡ done (plan8 request.now.level request.now.bytes.now) }
    ensures clock { clock.new ≡ clock_by clock.old (plan8 request.now.level request.now.bytes.now) }
{
    let length = request.bytes.len();
    require(7 <= length, Refusal::Length, length as u8)?;
    require(2 <= request.level, Refusal::LevelTooLow, 0)?;
    check_moment(Clock::of_bytes(request.bytes))?;
    require(length <= 7, Refusal::Length, 7)?;
    clock.copy_from_slice(request.bytes);
    Ok(())
}
