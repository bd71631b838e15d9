//! The reply to a list that passed its check.
ghost use Rattle.std.specs.Prelude.{◌≡◌, ◌+◌, ◌≤◌, length, drop};
ghost use Rattle.base.specs.Lists.{put};
ghost use Rattle.points.specs.Types.{gateway};
ghost use Rattle.rules.specs.Deeds.{told};
ghost use Rattle.rules.specs.Lists.{reading};
ghost use Rattle.lists.specs.Walks.{caller_of};
ghost use Rattle.reads.specs.Telling.{sized, Passes, pieces_of};

use crate::Readable;
use crate::any::AnyReadable;
use frame::Reply;
use lists::{Caller, Purpose};
use store::Store;

/// The bytes that name an entry and the value behind them, from a place of the reply on. The answer is the place behind both.
fn tell_entry(reply: &mut [u8], to: usize, name: &[u8], value: &[u8]) -> usize
    requires { to + length name.now + length value.now ≤ length reply.old }
    ensures is { reply.new ≡ put (put reply.old to name.now) (to + length name.now) value.now }
    ensures behind { result ≡ to + (length name.now + length value.now) }
{
    store::tell(reply, to, name);
    store::tell(reply, to + name.len(), value);
    to + name.len() + value.len()
}

/// What the reply begins with and every value, from place 6 of the reply on.
#[tactic(auto, unfolding(base::specs::Check::checks), using(crate::proofs::Turns::turn, crate::proofs::Turns::tell_turn, crate::proofs::Turns::tell_end, crate::proofs::Whole::room_begins, crate::proofs::Whole::whole_sizing, crate::proofs::Whole::whole_telling))]
pub fn tell_any<E: AnyReadable>(
    entries: &E,
    who: Caller,
    bytes: &[u8],
    from: usize,
    store: &Store,
    reply: &mut Reply,
)
    requires short { length bytes.now ≤ 255 }
    requires within { from ≤ length bytes.now }
    requires ready { E.ready entries.now bytes.now }
    requires tellable { E.tellable entries.now bytes.now }
    requires passes { Passes (sized (reading gateway (caller_of who) (E.source entries.now) (E.count entries.now) (drop from bytes.now) from (E.opening entries.now bytes.now))) }
    ensures { reply.new ≡ put reply.old 6 (told gateway store.now (pieces_of (reading gateway (caller_of who) (E.source entries.now) (E.count entries.now) (drop from bytes.now) from (E.opening entries.now bytes.now)))) }
{
    entries.begin(bytes, store, reply);
    let mut at = from;
    let mut to = 6 + entries.opening_size(bytes);
    for e in 0..entries.count() {
        let entry = entries.entry(who, Purpose::Read, e, bytes, at).unwrap();
        let name = &bytes[at..at + entries.step()];
        to = tell_entry(reply, to, name, store::value_in(store, entry.spot));
        at += name.len();
    }
}

/// What the reply begins with and every value of a list of at most 255 entries, from place 6 of the reply on.
pub fn tell<E: Readable>(
    entries: &E,
    who: Caller,
    bytes: &[u8],
    from: usize,
    store: &Store,
    reply: &mut Reply,
)
    requires short { length bytes.now ≤ 255 }
    requires within { from ≤ length bytes.now }
    requires ready { E.ready entries.now bytes.now }
    requires passes { Passes (sized (reading gateway (caller_of who) (E.source entries.now) (E.count entries.now) (drop from bytes.now) from (E.opening entries.now bytes.now))) }
    ensures { reply.new ≡ put reply.old 6 (told gateway store.now (pieces_of (reading gateway (caller_of who) (E.source entries.now) (E.count entries.now) (drop from bytes.now) from (E.opening entries.now bytes.now)))) }
{
    tell_any(entries, who, bytes, from, store, reply);
}
