//! Frames: addresses, whom a request is for, and the bytes of a reply.
#![tactic(auto)]

ghost use Rattle.std.specs.Prelude.{◌≡◌, ◌∷◌, [], ◌+◌, ◌≤◌, IfOk, IfErr, length, slice_index, take};
ghost use Rattle.base.specs.Check.{fault, pass};
ghost use Rattle.base.specs.Lists.{part, put, over};
ghost use Rattle.faults.specs.Faults.{number_of};
ghost use Rattle.frame.specs.Address.{address, stationary, for_us, source};
ghost use Rattle.frame.specs.Frame.{data_length, data_of, opcode, is_broadcast, heading, crc_bytes, frame_of};
ghost use Rattle.frame.specs.Framing.{framed};

use faults::{Refusal, refuse_unless};

/// The most bytes that a frame has: the heading's 6, 255 of data, the CRC's 2.
pub const LONGEST: usize = 263;

/// What a reply is written to: room for the longest frame.
pub type Reply = [u8; LONGEST];

/// The address of a station, of a group's stations together (unit 0), or of whoever is connected directly.
#[derive(Clone, Copy, Debug, PartialEq, Eq)]
pub struct Address {
    pub unit: u8,
    pub group: u8,
}

impl Address {
    /// Direct connect: whoever is connected is meant.
    pub const DIRECT: Address = Address {
        unit: 240,
        group: 240,
    };

    /// Whether it stands for one station.
    #[tactic(auto, unfolding(crate::specs::Address::stationary, crate::specs::Address::same_address))]
    pub fn is_stationary(self) -> bool
        ensures { result ≡ stationary self }
    {
        self.unit != 0 && self != Address::DIRECT
    }

    /// Whether a request for `to` is for us, whose address this is.
    #[tactic(auto, unfolding(crate::specs::Address::for_us, crate::specs::Address::same_address))]
    pub fn hears(self, to: Address) -> bool
        ensures { result ≡ for_us self to }
    {
        let all = Address {
            unit: 0,
            group: self.group,
        };
        to == self || to == all || to == Address::DIRECT
    }
}

/// The address that stands at a place: the unit, then the group.
fn address_at(bytes: &[u8], at: usize) -> Address
    requires { at + 2 ≤ length bytes.now }
    ensures { result ≡ address (slice_index bytes.now at) (slice_index bytes.now (at + 1)) }
{
    Address {
        unit: bytes[at],
        group: bytes[at + 1],
    }
}

/// A frame that was received: it is as long as its length byte says, from 8 bytes to 263.
#[derive(Clone, Copy)]
pub struct Frame<'a> {
    bytes: &'a [u8],
    ghost whole: { length bytes.now ≡ data_length bytes.now + 8 },
}

impl<'a> Frame<'a> {
    /// The frame that the bytes are, where it is whole, for us and from another station. Refused for its length, its data length,
    /// its CRC, its destination and its source, in that order.
    #[tactic(auto, unfolding(crate::specs::Framing::whole, crate::specs::Framing::directed, crate::specs::Frame::crc_right, crate::specs::Address::same_address, base::specs::Check::checks))]
    pub fn receive(us: Address, bytes: &'a [u8]) -> Result<Frame<'a>, Refusal>
        ensures ok { IfOk result (λ frame. (framed us bytes.now ≡ pass tt) × (frame.bytes.now ≡ bytes.now)) }
        ensures err { IfErr result (λ refusal. framed us bytes.now ≡ fault (number_of refusal) 0) }
    {
        refuse_unless((8..=LONGEST).contains(&bytes.len()), Refusal::FrameLength)?;
        let count = bytes[5] as usize;
        refuse_unless(bytes.len() == count + 8, Refusal::DataLength)?;
        let found = crc::crc16(&bytes[..count + 6]);
        let said = u16::from_le_bytes([bytes[count + 6], bytes[count + 7]]);
        refuse_unless(found == said, Refusal::CrcDiffers)?;
        let to = address_at(bytes, 0);
        refuse_unless(us.hears(to), Refusal::NotForUs)?;
        let from = address_at(bytes, 2);
        refuse_unless(from.is_stationary() && from != us, Refusal::BadSource)?;
        Ok(Frame { bytes })
    }

    /// Whether it is for all stations of our group: it is acted on and not answered.
    pub fn is_broadcast(&self) -> bool
        ensures { result ≡ is_broadcast self.now.bytes.now }
    {
        self.bytes[0] == 0
    }

    /// The station that asks.
    pub fn source(&self) -> Address
        ensures { result ≡ source self.now.bytes.now }
    {
        address_at(self.bytes, 2)
    }

    pub fn opcode(&self) -> u8
        ensures { result ≡ opcode self.now.bytes.now }
    {
        self.bytes[4]
    }

    /// The heading of a frame that goes back from us to the station that asks.
    pub fn heading_back(&self, us: Address, opcode: u8) -> Heading
        ensures { result ≡ record { to = source self.now.bytes.now; us = us; opcode = opcode } }
    {
        Heading {
            to: self.source(),
            us,
            opcode,
        }
    }

    /// The data of the request, 255 bytes at most.
    #[tactic(auto, unfolding(crate::specs::Frame::data_of, base::specs::Lists::part))]
    pub fn content(&self) -> &'a [u8]
        ensures is { result.now ≡ data_of self.now.bytes.now }
        ensures short { length result.now ≤ 255 }
    {
        let count = self.bytes[5] as usize;
        &self.bytes[6..count + 6]
    }
}

/// What a reply's heading says besides its data length: whom it goes to, who sends it, its opcode.
#[derive(Clone, Copy, Debug, PartialEq, Eq)]
pub struct Heading {
    pub to: Address,
    pub us: Address,
    pub opcode: u8,
}

impl Heading {
    /// The six bytes before `count` bytes of data.
    #[tactic(auto, unfolding(base::specs::Lists::put))]
    pub fn put(self, reply: &mut [u8], count: u8)
        requires { 6 ≤ length reply.old }
        ensures { reply.new ≡ put reply.old 0 (heading self.to self.us self.opcode count) }
    {
        let Heading { to, us, opcode } = self;
        reply[..6].copy_from_slice(&[to.unit, to.group, us.unit, us.group, opcode, count]);
    }

    /// Heading and CRC around the `count` bytes of data that stand from place 6 on, and how many bytes that makes.
    #[tactic(auto, using(crate::proofs::Written::closed))]
    pub fn close(self, reply: &mut [u8], count: u8) -> u16
        requires { count + 8 ≤ length reply.old }
        ensures size { result ≡ count + 8 }
        ensures framed { reply.new ≡ over reply.old (frame_of self.to self.us self.opcode (part reply.old 6 count)) }
    {
        self.put(reply, count);
        let end = count as usize + 6;
        seal(reply, end);
        end as u16 + 2
    }
}

/// The CRC of the first `end` bytes, behind them.
#[tactic(auto, unfolding(base::specs::Lists::put))]
pub fn seal(reply: &mut [u8], end: usize)
    requires { end + 2 ≤ length reply.old }
    ensures { reply.new ≡ put reply.old end (crc_bytes (take end reply.old)) }
{
    let crc = crc::crc16(&reply[..end]);
    reply[end..end + 2].copy_from_slice(&crc.to_le_bytes());
}
