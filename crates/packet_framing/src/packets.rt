ghost use Rattle.std.specs.Prelude.{◌≡◌, ◌+◌, ◌<◌, ◌≤◌, length, take, drop, IfOk, IfErr, IfSome, IfNone};
ghost use Rattle.packet_framing.specs.Frames.{header_len, header_limit, header};
ghost use Rattle.packet_framing.specs.Joined.{bytes_of};
ghost use Rattle.packet_framing.specs.Unframed.{IsPart, PacketsSplit};
ghost use Rattle.packet_framing.specs.Reading.{FoundPacket, PacketFails, ReadsOversize};

use crate::joined::Joined;
use crate::mode::MAX_LEN;
use crate::reading::Reading;
use crate::{Flag, Message, Mode, UnframeFault};
use std::alloc::Global;

/// The messages of the whole frames that the bytes begin with.
pub(crate) fn read_packets(
    alloc: Global,
    mode: Mode,
    joined: &Joined,
) -> Result<Reading, UnframeFault>
    requires { 0 < header_len mode }
    ensures split { IfOk result (λ r. PacketsSplit mode (bytes_of joined.now) r.messages.items (drop r.rest (bytes_of joined.now))) }
    ensures within { IfOk result (λ r. r.rest ≤ length (bytes_of joined.now)) }
    ensures fault { IfErr result (ReadsOversize mode (bytes_of joined.now)) }
{
    let size = joined.len();
    let mut reading = Reading {
        messages: Vec::new(alloc),
        rest: 0,
    };
    while let Some(message) = first_packet(alloc, mode, joined, reading.rest)? {
        reading.rest += mode.header_len() + message.bytes.len();
        reading.messages.push(message)?;
        prove!(reading.rest <= size);
    }
    Ok(reading)
}

/// The message of the frame that begins at a place, if it is whole. A frame that is too long is
/// refused by its header, before memory is taken.
fn first_packet(
    alloc: Global,
    mode: Mode,
    joined: &Joined,
    at: usize,
) -> Result<Option<Message>, UnframeFault>
    requires packet { 0 < header_len mode }
    requires within { at ≤ length (bytes_of joined.now) }
    ensures found { IfOk result (λ found. IfSome found (FoundPacket mode (drop at (bytes_of joined.now)))) }
    ensures none { IfOk result (λ found. IfNone found (IsPart mode (drop at (bytes_of joined.now)))) }
    ensures fault { IfErr result (PacketFails mode (drop at (bytes_of joined.now))) }
{
    let left = joined.len() - at;
    if left < mode.header_len() {
        return Ok(None);
    }
    let len = told_len(mode, joined, at);
    if len > MAX_LEN {
        return Err(UnframeFault::Oversize {
            len: u64::from(len),
        });
    }
    if left - mode.header_len() < len as usize {
        return Ok(None);
    }
    let start = at + mode.header_len();
    let message = joined.message(alloc, Flag::Plain, start, start + len as usize)?;
    Ok(Some(message))
}

/// The length that the header at a place tells.
fn told_len(mode: Mode, joined: &Joined, at: usize) -> u32
    requires { at + header_len mode ≤ length (bytes_of joined.now) }
    ensures value { take (header_len mode) (drop at (bytes_of joined.now)) ≡ header mode result }
    ensures below { result < header_limit mode }
{
    let size = joined.len();
    prove!(at <= size);
    match mode {
        Mode::Packet1 => joined.byte(at) as u32,
        Mode::Packet2 => u16::from_be_bytes([joined.byte(at), joined.byte(at + 1)]) as u32,
        Mode::Packet4 => u32::from_be_bytes([
            joined.byte(at),
            joined.byte(at + 1),
            joined.byte(at + 2),
            joined.byte(at + 3),
        ]),
        Mode::Line(_) | Mode::Stream => 0,
    }
}
