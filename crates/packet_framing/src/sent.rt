ghost use Rattle.std.specs.Prelude.{◌≡◌, ◌∷◌, length, IfOk, IfErr, OnOk};
ghost use Rattle.std.specs.List.{concat};
ghost use Rattle.packet_framing.specs.Frames.{frame_of, framed, Holds, FrameFails};

use crate::{FrameFault, Mode};
use io_vector::{IoVec, NoMemory, Piece};
use std::alloc::Global;

/// The frame of a message: its length in the mode's bytes of length, the most significant first,
/// and then its bytes. In line and stream mode it is the bytes alone, and no line end is added.
///
/// No byte of the message is copied: the header is a segment of its own, and the others are shared.
pub fn frame(alloc: Global, mode: Mode, payload: &IoVec) -> Result<IoVec, FrameFault>
    ensures holds { OnOk result (Holds mode (length (concat payload.now))) }
    ensures bytes { IfOk result (λ sent. concat sent ≡ frame_of mode (concat payload.now)) }
    ensures segments { IfOk result (λ sent. sent ≡ framed mode payload.now (length (concat payload.now))) }
    ensures fault { IfErr result (FrameFails mode (length (concat payload.now))) }
{
    let len = payload.size();
    match mode {
        Mode::Packet1 => {
            if len > u8::MAX as u64 {
                return Err(FrameFault::TooLong { len });
            }
            headed(alloc, &[len as u8], payload).map_err(|_| FrameFault::NoMemory)
        }
        Mode::Packet2 => {
            if len > u16::MAX as u64 {
                return Err(FrameFault::TooLong { len });
            }
            headed(alloc, &(len as u16).to_be_bytes(), payload).map_err(|_| FrameFault::NoMemory)
        }
        Mode::Packet4 => {
            if len > u32::MAX as u64 {
                return Err(FrameFault::TooLong { len });
            }
            headed(alloc, &(len as u32).to_be_bytes(), payload).map_err(|_| FrameFault::NoMemory)
        }
        Mode::Line(_) | Mode::Stream => payload.share().map_err(|_| FrameFault::NoMemory),
    }
}

/// The bytes of the header as a segment before those of the payload.
fn headed(alloc: Global, header: &[u8], payload: &IoVec) -> Result<IoVec, NoMemory>
    ensures { IfOk result (λ sent. sent ≡ header.now ∷ payload.now) }
{
    let mut sent = IoVec::of_piece(alloc, Piece::of_slice(alloc, header)?);
    sent.append(payload.share()?).map_err(|refused| refused.1)?;
    Ok(sent)
}
