//! CRC-16, worked four bits at a time from a table of 16.
#![tactic(auto)]

ghost use Rattle.std.specs.Prelude.{◌≡◌};
ghost use Rattle.crc.specs.Crc.{turns4, crc_byte, crc_of};

// What four turns make of each register below 16. Bit by bit is shorter, and takes three times as long for a long frame.
const TABLE: [u16; 16] = [
    0x0000, 0xcc01, 0xd801, 0x1400, 0xf001, 0x3c00, 0x2800, 0xe401, 0xa001, 0x6c00, 0x7800, 0xb401,
    0x5000, 0x9c01, 0x8801, 0x4400,
];

// Four turns of the register at once.
#[tactic(auto, using(crate::proofs::Turns::by_table))]
fn nibble(register: u16) -> u16
    ensures { result ≡ turns4 register }
{
    (register / 16) ^ TABLE[usize::from(register % 16)]
}

// The register after one more byte.
#[tactic(auto, unfolding(crate::specs::Crc::crc_byte))]
fn taken(register: u16, byte: u8) -> u16
    ensures { result ≡ crc_byte register byte }
{
    nibble(nibble(register ^ u16::from(byte)))
}

/// The CRC of all the bytes.
#[tactic(auto, using(crate::proofs::Folded::by_fold))]
pub fn crc16(bytes: &[u8]) -> u16
    ensures { result ≡ crc_of bytes.now }
{
    bytes
        .iter()
        .fold(0, |register, byte| taken(register, *byte))
}
