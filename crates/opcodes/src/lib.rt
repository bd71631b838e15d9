//! The eight opcodes: each checks its request's data and then does what it asks.
//!
//! A broadcast has no reply: then a read is not `aloud`, and leaves the reply space as it is. The space is handed down all the same, so that one
//! clause says what is in it afterwards, whether or not there is to be a reply.
#![tactic(auto)]

pub mod blocks;
pub mod clocks;
mod held;
pub mod named;
mod opcode;
pub mod tables;
mod walks;

ghost use Rattle.std.specs.Prelude.{◌≡◌, ◌≤◌, length};
ghost use Rattle.rules.specs.Entries.{request};
ghost use Rattle.lists.specs.Walks.{caller_of};

use lists::Caller;
pub use opcode::Opcode;

/// What a request brings to its opcode: the level of whoever asks, and the data of the frame, which are 255 bytes at most.
#[derive(Clone, Copy)]
pub struct Request<'a> {
    pub level: u8,
    pub bytes: &'a [u8],
    ghost short: { length bytes.now ≤ 255 },
}

impl Request<'_> {
    /// Whoever asks, as the lists know them.
    fn caller(&self) -> Caller
        ensures { caller_of result ≡ request self.now.level }
    {
        Caller::Request { level: self.level }
    }
}
