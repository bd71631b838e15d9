//! The opcodes that are served.

ghost use Rattle.std.specs.Prelude.{◌≡◌, MatchResult};
ghost use Rattle.rules.specs.Opcodes.{opcode_of, unserved};
ghost use Rattle.opcodes.specs.Opcodes.{served, not_served};

use faults::{Fault, Refusal};
use std::convert::TryFrom;

/// An opcode that is served. The discriminant is its number in a frame.
#[derive(Clone, Copy, Debug, PartialEq, Eq)]
pub enum Opcode {
    ReadClock = 7,
    SetClock = 8,
    ReadTable = 10,
    WriteTable = 11,
    WriteBlock = 166,
    ReadBlock = 167,
    ReadNamed = 180,
    WriteNamed = 181,
}

impl TryFrom<u8> for Opcode {
    /// Unserved, at place 0.
    type Error = Fault;

    ghost try_from_gives = { λ number result. MatchResult result (λ opcode. opcode_of number ≡ served opcode) (λ fault. (opcode_of number ≡ unserved) × (fault ≡ not_served)) };

    #[tactic(auto, unfolding(rules::specs::Opcodes::opcode_of))]
    fn try_from(number: u8) -> Result<Opcode, Fault> {
        match number {
            7 => Ok(Opcode::ReadClock),
            8 => Ok(Opcode::SetClock),
            10 => Ok(Opcode::ReadTable),
            11 => Ok(Opcode::WriteTable),
            166 => Ok(Opcode::WriteBlock),
            167 => Ok(Opcode::ReadBlock),
            180 => Ok(Opcode::ReadNamed),
            181 => Ok(Opcode::WriteNamed),
            _ => Err(Fault {
                refusal: Refusal::Unserved,
                place: 0,
            }),
        }
    }
}
