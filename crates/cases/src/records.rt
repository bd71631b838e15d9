//! A case as a file holds it.

ghost use Rattle.std.specs.Prelude.{◌≡◌, ◌≤◌, take};

use std::io::Read;

const SIZE: usize = 272;

/// A record of 272 bytes: level, a zero, the frame's length in two bytes, 263 bytes with the frame at their start, five zeros.
#[derive(Drop)]
pub struct Record {
    level: u8,
    count: usize,
    frame: [u8; frame::LONGEST],
    ghost fits: { count ≤ 263 },
}

impl Record {
    /// The next record. None behind the last whole one, nor from one whose frame is longer than it has room for. No clause says what a reader
    /// gives: that the frame fits is the type's.
    pub fn read(cases: &mut impl Read) -> Option<Record> {
        let mut bytes = [0u8; SIZE];
        cases.read_exact(&mut bytes).ok()?;
        let count = usize::from(u16::from_le_bytes([bytes[2], bytes[3]]));
        if count > frame::LONGEST {
            return None;
        }
        let mut frame = [0u8; frame::LONGEST];
        frame.copy_from_slice(&bytes[4..4 + frame::LONGEST]);
        Some(Record {
            level: bytes[0],
            count,
            frame,
        })
    }

    /// The level that the request comes with.
    pub fn level(&self) -> u8
        ensures { result ≡ self.now.level }
    {
        self.level
    }

    /// The request's frame.
    pub fn frame(&self) -> &[u8]
        ensures { result.now ≡ take self.now.count self.now.frame }
    {
        &self.frame[..self.count]
    }
}
