//! The request, whole: refused with no byte written, or its opcode carried out and its reply or an error frame sent.
#![tactic(auto)]

ghost use Rattle.std.specs.Prelude.{◌≡◌, ◌≤◌, not, Ok, Err, length};
ghost use Rattle.base.specs.Lists.{part, over};
ghost use Rattle.points.specs.Types.{gateway};
ghost use Rattle.faults.specs.Faults.{number_of, check_of};
ghost use Rattle.frame.specs.Frame.{opcode, is_broadcast};
ghost use Rattle.rules.specs.Answer.{answer, error_opcode, error_data};
ghost use Rattle.request.specs.Acted.{without_data, Acted};
ghost use Rattle.opcodes.specs.Done.{held};
ghost use Rattle.request.specs.Sent.{asked, plan_for, sent_back, ended_as, performed};

mod admission;

use admission::admit;
use faults::{Fault, Refusal};
use frame::{Address, Frame, Reply};
use opcodes::{Opcode, Request, blocks, clocks, named, tables};
use std::convert::TryFrom;
use store::Store;

/// The opcode of an error frame.
const ERROR: u8 = 255;

/// How a request ended: done or why it is refused, and how many bytes the reply or the error frame has.
#[derive(Clone, Copy, Debug, PartialEq, Eq)]
pub struct Ended {
    pub outcome: Result<(), Refusal>,
    pub count: u16,
}

/// An opcode that writes tells no data.
#[tactic(auto, unfolding(crate::specs::Acted::without_data))]
fn without_data(written: Result<(), Fault>) -> Result<usize, Fault>
    ensures { check_of result ≡ without_data (check_of written) }
{
    written.map(|()| 0)
}

/// What the opcode asks, done: how many bytes of data stand in the reply from place 6 on. For a broadcast none is written.
fn act(
    level: u8,
    frame: &Frame,
    store: &mut Store,
    clock: &mut [u8; 7],
    reply: &mut Reply,
) -> Result<usize, Fault>
    ensures { Acted (plan_for frame.now.bytes.now level store.old clock.old) (not (is_broadcast frame.now.bytes.now))
        store.old store.new clock.old clock.new reply.old reply.new (check_of result) }
{
    let request = Request {
        level,
        bytes: frame.content(),
    };
    let aloud = !frame.is_broadcast();
    match Opcode::try_from(frame.opcode())? {
        Opcode::ReadClock => clocks::read(&request, clock, aloud, reply),
        Opcode::SetClock => without_data(clocks::set(&request, clock)),
        Opcode::ReadTable => tables::read(&request, store, aloud, reply),
        Opcode::WriteTable => without_data(tables::write(&request, store)),
        Opcode::WriteBlock => without_data(blocks::write(&request, store)),
        Opcode::ReadBlock => blocks::read(&request, store, aloud, reply),
        Opcode::ReadNamed => named::read(&request, store, aloud, reply),
        Opcode::WriteNamed => without_data(named::write(&request, store)),
    }
}

/// The reply: a frame around the `count` bytes of data that the opcode told, unless the request is a broadcast.
#[tactic(auto, unfolding(crate::specs::Sent::sent_back, base::specs::Lists::over), using(crate::proofs::Sent::reply_length))]
fn answer(us: Address, frame: &Frame, count: u8, reply: &mut Reply) -> Ended
    ensures outcome { result.outcome ≡ Ok tt }
    ensures count { result.count ≡ length (sent_back frame.now.bytes.now us (opcode frame.now.bytes.now) (part reply.old 6 count)) }
    ensures space { reply.new ≡ over reply.old (sent_back frame.now.bytes.now us (opcode frame.now.bytes.now) (part reply.old 6 count)) }
{
    let outcome = Ok(());
    if frame.is_broadcast() {
        return Ended { outcome, count: 0 };
    }
    let heading = frame.heading_back(us, frame.opcode());
    Ended {
        outcome,
        count: heading.close(reply, count),
    }
}

/// The error frame of a fault, unless the request is a broadcast: with the outcome and the place.
#[tactic(auto, unfolding(crate::specs::Sent::sent_back, base::specs::Lists::over), using(crate::proofs::Sent::error_length, crate::proofs::Sent::error_told))]
fn refuse(us: Address, frame: &Frame, fault: Fault, reply: &mut Reply) -> Ended
    ensures outcome { result.outcome ≡ Err fault.refusal }
    ensures count { result.count ≡ length (sent_back frame.now.bytes.now us error_opcode (error_data (number_of fault.refusal) fault.place)) }
    ensures space { reply.new ≡ over reply.old (sent_back frame.now.bytes.now us error_opcode (error_data (number_of fault.refusal) fault.place)) }
{
    let outcome = Err(fault.refusal);
    if frame.is_broadcast() {
        return Ended { outcome, count: 0 };
    }
    store::tell(reply, 6, &[fault.refusal.outcome(), fault.place]);
    let heading = frame.heading_back(us, ERROR);
    Ended {
        outcome,
        count: heading.close(reply, 2),
    }
}

/// A request that is received: its opcode carried out, and the frame that tells how it ended.
fn perform(
    us: Address,
    level: u8,
    frame: &Frame,
    store: &mut Store,
    clock: &mut [u8; 7],
    reply: &mut Reply,
) -> Ended
    ensures is { ended_as result store.new clock.new reply.new
        ≡ performed (asked frame.now.bytes.now us level) (held store.old clock.old) reply.old }
    ensures long { length reply.new ≡ 263 }
{
    match act(level, frame, store, clock, reply) {
        Ok(count) => answer(us, frame, count as u8, reply),
        Err(fault) => refuse(us, frame, fault, reply),
    }
}

/// The whole call: a request that is not received leaves every buffer as it is.
#[tactic(auto, using(crate::proofs::Answered::unheard, crate::proofs::Answered::heard))]
pub fn request(
    us: Address,
    level: u8,
    bytes: &[u8],
    store: &mut [u8],
    clock: &mut [u8; 7],
    reply: &mut [u8],
) -> Ended
    ensures { ended_as result store.new clock.new reply.new
        ≡ answer gateway (asked bytes.now us level) (held store.old clock.old) reply.old }
{
    match admit(us, level, bytes, store, clock, reply) {
        Ok(frame) => {
            let store = store.as_mut_array::<{ store::LENGTH }>().unwrap();
            let reply = reply.first_chunk_mut::<{ frame::LONGEST }>().unwrap();
            perform(us, level, &frame, store, clock, reply)
        }
        Err(refusal) => Ended {
            outcome: Err(refusal),
            count: 0,
        },
    }
}
