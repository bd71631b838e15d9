//! A list of parameters, read or written: first every entry is checked, then all are told or stored.

ghost use Rattle.std.specs.Prelude.{◌≡◌, ◌≤◌, [], ℕ, List, length, drop};
ghost use Rattle.faults.specs.Faults.{check_of};
ghost use Rattle.points.specs.Types.{gateway};
ghost use Rattle.rules.specs.Entries.{request as asked};
ghost use Rattle.rules.specs.Lists.{reading, writing};
ghost use Rattle.opcodes.specs.Done.{held, said, done, space_by, store_by};
ghost use Rattle.opcodes.specs.Walks.{telling_all, keeping_all};

use crate::Request;
use faults::Fault;
use frame::Reply;
use lists::any::AnyEntries;
use reads::any::AnyReadable;
use store::Store;

/// The values of the list, told from place 6 of the reply on unless the request is a broadcast, and how many data bytes that makes.
#[tactic(auto, unfolding(crate::specs::Walks::telling_all, base::specs::Check::checks))]
pub fn read<E: AnyReadable>(
    entries: &E,
    request: &Request,
    from: usize,
    store: &Store,
    aloud: bool,
    reply: &mut Reply,
) -> Result<usize, Fault>
    requires within { from ≤ length request.now.bytes.now }
    requires ready { E.ready entries.now request.now.bytes.now }
    requires tellable { E.tellable entries.now request.now.bytes.now }
    ensures answer { (c : List ℕ) → check_of result ≡ said (telling_all (held store.now c) (reading gateway (asked request.now.level) (E.source entries.now) (E.count entries.now) (drop from request.now.bytes.now) from (E.opening entries.now request.now.bytes.now))) }
    ensures space { (c : List ℕ) → reply.new ≡ space_by aloud store.now reply.old (telling_all (held store.now c) (reading gateway (asked request.now.level) (E.source entries.now) (E.count entries.now) (drop from request.now.bytes.now) from (E.opening entries.now request.now.bytes.now))) }
{
    let who = request.caller();
    let size = reads::check(entries, who, request.bytes, from)?;
    if aloud {
        reads::tell_any(entries, who, request.bytes, from, store, reply);
    }
    Ok(size)
}

/// The values that the data carry, stored if each may be.
#[tactic(auto, unfolding(crate::specs::Walks::keeping_all, base::specs::Check::checks))]
pub fn write<E: AnyEntries>(
    entries: &E,
    request: &Request,
    from: usize,
    store: &mut Store,
) -> Result<(), Fault>
    requires within { from ≤ length request.now.bytes.now }
    ensures answer { (c : List ℕ) → check_of result ≡ done (keeping_all (held store.old c) (writing gateway (asked request.now.level) store.old (E.source entries.now) (E.count entries.now) (drop from request.now.bytes.now) from [])) }
    ensures store { (c : List ℕ) → store.new ≡ store_by store.old (keeping_all (held store.old c) (writing gateway (asked request.now.level) store.old (E.source entries.now) (E.count entries.now) (drop from request.now.bytes.now) from [])) }
{
    let who = request.caller();
    writes::check(entries, who, request.bytes, from, store)?;
    writes::keep(entries, who, request.bytes, from, store);
    Ok(())
}
