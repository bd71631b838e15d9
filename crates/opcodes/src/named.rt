//! 180 and 181: a count, then three numbers for each parameter, which with 181 its value follows.

ghost use Rattle.std.specs.Prelude.{◌≡◌, ◌≤◌, ℕ, List, length, IfOk};
ghost use Rattle.faults.specs.Faults.{check_of};
ghost use Rattle.points.specs.Types.{gateway};
ghost use Rattle.rules.specs.Opcodes.{plan180, plan181};
ghost use Rattle.opcodes.specs.Done.{held, said, done, space_by, store_by};
ghost use Rattle.opcodes.specs.Walks.{named_list};

use crate::{Request, walks};
use faults::{Fault, Refusal, require};
use frame::Reply;
use lists::any::AnyNamed;
use store::Store;

/// The list that the data name: how many parameters.
#[tactic(auto, unfolding(crate::specs::Walks::named_list, rules::specs::Opcodes::counted, base::specs::Check::checks))]
fn count(request: &Request) -> Result<AnyNamed, Fault>
    ensures is { check_of result ≡ named_list request.now.bytes.now }
    ensures some { IfOk result (λ list. 1 ≤ length request.now.bytes.now) }
    ensures few { IfOk result (λ list. list.count ≤ 255) }
{
    require(1 <= request.bytes.len(), Refusal::Length, 0)?;
    require(request.bytes[0] != 0, Refusal::CountZero, 0)?;
    Ok(AnyNamed {
        count: request.bytes[0] as usize,
    })
}

/// Opcode 180: the values of the parameters, each behind the three numbers that name it.
#[tactic(auto, unfolding(rules::specs::Opcodes::plan180, crate::specs::Walks::named_list, crate::specs::Walks::telling_all, base::specs::Check::checks))]
pub fn read(
    request: &Request,
    store: &Store,
    aloud: bool,
    reply: &mut Reply,
) -> Result<usize, Fault>
    ensures answer { (c : List ℕ) → check_of result ≡ said (plan180 gateway request.now.level (held store.now c) request.now.bytes.now) }
    ensures space { (c : List ℕ) → reply.new ≡ space_by aloud store.now reply.old (plan180 gateway request.now.level (held store.now c) request.now.bytes.now) }
{
    let entries = count(request)?;
    walks::read(&entries, request, 1, store, aloud, reply)
}

/// Opcode 181: the parameters' values, which the data carry, stored.
#[tactic(auto, unfolding(rules::specs::Opcodes::plan181, crate::specs::Walks::named_list, crate::specs::Walks::keeping_all, base::specs::Check::checks))]
pub fn write(request: &Request, store: &mut Store) -> Result<(), Fault>
    ensures answer { (c : List ℕ) → check_of result ≡ done (plan181 gateway request.now.level (held store.old c) request.now.bytes.now) }
    ensures store { (c : List ℕ) → store.new ≡ store_by store.old (plan181 gateway request.now.level (held store.old c) request.now.bytes.now) }
{
    let entries = count(request)?;
    walks::write(&entries, request, 1, store)
}
