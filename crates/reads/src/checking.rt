//! The check of a list that is read.
ghost use Rattle.std.specs.Prelude.{◌≡◌, ◌≤◌, length, drop};
ghost use Rattle.faults.specs.Faults.{check_of};
ghost use Rattle.points.specs.Types.{gateway};
ghost use Rattle.rules.specs.Lists.{reading};
ghost use Rattle.lists.specs.Walks.{caller_of};
ghost use Rattle.reads.specs.Telling.{sized};

use crate::any::AnyReadable;
use faults::{Fault, Refusal, require};
use lists::{Caller, Purpose};

/// Every entry in turn: type, logical, parameter, level; then spare bytes, then the size of the reply. How many data bytes the reply has.
#[tactic(auto, unfolding(base::specs::Check::checks), using(crate::proofs::Turns::turn, crate::proofs::Turns::end, crate::proofs::Whole::whole_sizing))]
pub fn check<E: AnyReadable>(
    entries: &E,
    who: Caller,
    bytes: &[u8],
    from: usize,
) -> Result<usize, Fault>
    requires short { length bytes.now ≤ 255 }
    requires within { from ≤ length bytes.now }
    requires ready { E.ready entries.now bytes.now }
    ensures { check_of result ≡ sized (reading gateway (caller_of who) (E.source entries.now) (E.count entries.now) (drop from bytes.now) from (E.opening entries.now bytes.now)) }
{
    let mut at = from;
    let mut size = entries.opening_size(bytes);
    for e in 0..entries.count() {
        let entry = entries.entry(who, Purpose::Read, e, bytes, at)?;
        let step = entries.step();
        at += step;
        size += step + entry.spot.len;
    }
    require(bytes.len() <= at, Refusal::Length, at as u8)?;
    require(size <= 255, Refusal::ReplyTooLong, 0)?;
    Ok(size)
}
