//! The values of a list that passed its check.
ghost use Rattle.std.specs.Prelude.{◌≡◌, ◌≤◌, [], length, drop};
ghost use Rattle.base.specs.Check.{pass};
ghost use Rattle.points.specs.Types.{gateway};
ghost use Rattle.store.specs.Store.{stored};
ghost use Rattle.rules.specs.Lists.{writing};
ghost use Rattle.lists.specs.Walks.{caller_of};
ghost use Rattle.writes.specs.Walked.{Alone, passed_of, writes_of};

use lists::any::AnyEntries;
use lists::{Caller, Purpose};
use store::Store;

/// Every value of a list that passed its check, stored.
#[tactic(auto, unfolding(base::specs::Check::checks), using(crate::proofs::Turns::turn, crate::proofs::Turns::keep_turn, crate::proofs::Turns::keep_end, crate::proofs::Whole::whole_checking, crate::proofs::Whole::whole_keeping))]
pub fn keep<E: AnyEntries>(entries: &E, who: Caller, bytes: &[u8], from: usize, store: &mut Store)
    requires short { length bytes.now ≤ 255 }
    requires within { from ≤ length bytes.now }
    requires alone { Alone (caller_of who) (E.count entries.now) }
    requires passes { passed_of (writing gateway (caller_of who) store.old (E.source entries.now) (E.count entries.now) (drop from bytes.now) from []) ≡ pass tt }
    ensures { store.new ≡ stored gateway store.old (writes_of (writing gateway (caller_of who) store.old (E.source entries.now) (E.count entries.now) (drop from bytes.now) from [])) }
{
    let mut at = from;
    for e in 0..entries.count() {
        let entry = entries.entry(who, Purpose::Write, e, bytes, at).unwrap();
        let start = at + entries.step();
        store::keep(store, entry.spot, &bytes[start..start + entry.spot.len]);
        at = start + entry.spot.len;
    }
}
