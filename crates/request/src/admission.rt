//! What refuses a request before its opcode is looked at.
ghost use Rattle.std.specs.Prelude.{◌≡◌, ◌≤◌, IfOk, IfErr, length};
ghost use Rattle.base.specs.Check.{fault, pass};
ghost use Rattle.points.specs.Types.{gateway};
ghost use Rattle.faults.specs.Faults.{number_of};
ghost use Rattle.rules.specs.Received.{received};
ghost use Rattle.opcodes.specs.Done.{held};
ghost use Rattle.request.specs.Sent.{asked};

use clock::Clock;
use faults::{Refusal, refuse_unless};
use frame::{Address, Frame};

/// The frame of a request that is to be acted on. Else the first that applies of: too little reply space, a store of another length,
/// an own address, a level or a clock that may not be, and what refuses the frame.
#[tactic(auto, unfolding(rules::specs::Received::received, base::specs::Check::checks), using(points::specs::Sums::store_bytes))]
pub fn admit<'a>(
    us: Address,
    level: u8,
    bytes: &'a [u8],
    store: &[u8],
    clock: &[u8; 7],
    reply: &[u8],
) -> Result<Frame<'a>, Refusal>
    ensures ok { IfOk result (λ frame. (received gateway (asked bytes.now us level) (held store.now clock.now) (length reply.now) ≡ pass tt) × (frame.bytes.now ≡ bytes.now)) }
    ensures room { IfOk result (λ frame. (length store.now ≡ 12427) × (263 ≤ length reply.now)) }
    ensures err { IfErr result (λ refusal. received gateway (asked bytes.now us level) (held store.now clock.now) (length reply.now) ≡ fault (number_of refusal) 0) }
{
    refuse_unless(frame::LONGEST <= reply.len(), Refusal::NoReplySpace)?;
    refuse_unless(store.len() == store::LENGTH, Refusal::StoreLength)?;
    let ready = us.is_stationary() && level <= 3 && Clock::of_bytes(clock).valid();
    refuse_unless(ready, Refusal::NotReady)?;
    Frame::receive(us, bytes)
}
