//! The check of a list that is written.
ghost use Rattle.std.specs.Prelude.{◌≡◌, ◌≤◌, [], length, drop};
ghost use Rattle.faults.specs.Faults.{check_of};
ghost use Rattle.points.specs.Types.{gateway};
ghost use Rattle.rules.specs.Lists.{writing};
ghost use Rattle.lists.specs.Walks.{caller_of};
ghost use Rattle.writes.specs.Walked.{Alone, passed_of};

use faults::{Fault, Refusal, require};
use lists::any::AnyEntries;
use lists::{Caller, Purpose};
use points::Kind;
use store::Store;

/// Every entry in turn: found, read-only, short, in its range; then spare bytes. Checking stops at the first fault found.
#[tactic(auto, unfolding(base::specs::Check::checks), using(crate::proofs::Turns::turn, crate::proofs::Turns::end, crate::proofs::Turns::letter, crate::proofs::Turns::no_letter, crate::proofs::Texts::weighs_text, crate::proofs::Whole::whole_checking))]
pub fn check<E: AnyEntries>(
    entries: &E,
    who: Caller,
    bytes: &[u8],
    from: usize,
    store: &Store,
) -> Result<(), Fault>
    requires short { length bytes.now ≤ 255 }
    requires within { from ≤ length bytes.now }
    requires alone { Alone (caller_of who) (E.count entries.now) }
    ensures { check_of result ≡ passed_of (writing gateway (caller_of who) store.now (E.source entries.now) (E.count entries.now) (drop from bytes.now) from []) }
{
    let mut at = from;
    for e in 0..entries.count() {
        let entry = entries.entry(who, Purpose::Write, e, bytes, at)?;
        let start = at + entries.step();
        let end = start + entry.spot.len;
        require(
            who.may_write(entry.spot.row, entry.logical),
            Refusal::ReadOnly,
            entries.locked_place(at) as u8,
        )?;
        require(end <= bytes.len(), Refusal::Length, bytes.len() as u8)?;
        let value = &bytes[start..end];
        if points::kind_at(entry.spot.row) == Kind::Text {
            for byte in value {
                require(values::printable(*byte), Refusal::OutOfRange, start as u8)?;
            }
        } else {
            values::weigh(store, entry.spot, entry.logical, value, start as u8)?;
        }
        at = end;
    }
    require(bytes.len() <= at, Refusal::Length, at as u8)
}
