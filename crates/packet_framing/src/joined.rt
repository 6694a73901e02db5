ghost use Rattle.std.specs.Prelude.{◌≡◌, ◌<◌, ◌≤◌, length, slice_index, slice_range, IfOk};
ghost use Rattle.packet_framing.specs.Joined.{bytes_of};

use crate::{Flag, Message};
use io_vector::{NoMemory, Piece};
use std::alloc::Global;

/// The bytes that an unframer holds and those of a chunk, read as one list of bytes. They are looked
/// at where they lie. A message that lies in the chunk shares its bytes; another one has a copy.
#[derive(Drop)]
pub(crate) struct Joined<'a> {
    pub(crate) held: &'a [u8],
    pub(crate) chunk: &'a Piece,
}

impl Joined<'_> {
    pub(crate) fn len(&self) -> usize
        ensures { result ≡ length (bytes_of self.now) }
    {
        self.held.len() + self.chunk.len()
    }

    pub(crate) fn byte(&self, at: usize) -> u8
        requires { at < length (bytes_of self.now) }
        ensures value { result ≡ slice_index (bytes_of self.now) at }
        ensures bound { result < 256 }
    {
        if at < self.held.len() {
            return self.held[at];
        }
        self.chunk.as_slice()[at - self.held.len()]
    }

    /// A copy of the bytes from place `start` to before place `end`.
    pub(crate) fn copy(&self, alloc: Global, start: usize, end: usize) -> Result<Vec<u8>, NoMemory>
        requires ordered { start ≤ end }
        requires within { end ≤ length (bytes_of self.now) }
        ensures { IfOk result (λ bytes. bytes.items ≡ slice_range (bytes_of self.now) start end) }
    {
        let held_start = start.min(self.held.len());
        let held_end = end.min(self.held.len());
        let mut bytes = Vec::with_capacity(alloc, end - start)?;
        bytes.extend_from_slice(&self.held[held_start..held_end])?;
        bytes.extend_from_slice(&self.chunk.as_slice()[start - held_start..end - held_end])?;
        Ok(bytes)
    }

    /// Those bytes as a piece: a part of the chunk where they lie in it, and else a copy.
    fn piece(&self, alloc: Global, start: usize, end: usize) -> Result<Piece, NoMemory>
        requires ordered { start ≤ end }
        requires within { end ≤ length (bytes_of self.now) }
        ensures { IfOk result (λ piece. piece ≡ slice_range (bytes_of self.now) start end) }
    {
        let held = self.held.len();
        if held <= start {
            return self.chunk.part(start - held, end - held);
        }
        Piece::of_vec(self.copy(alloc, start, end)?)
    }

    /// A message of those bytes.
    pub(crate) fn message(
        &self,
        alloc: Global,
        flag: Flag,
        start: usize,
        end: usize,
    ) -> Result<Message, NoMemory>
        requires ordered { start ≤ end }
        requires within { end ≤ length (bytes_of self.now) }
        ensures flag { IfOk result (λ m. m.flag ≡ flag) }
        ensures bytes { IfOk result (λ m. m.bytes ≡ slice_range (bytes_of self.now) start end) }
    {
        let bytes = self.piece(alloc, start, end)?;
        Ok(Message { flag, bytes })
    }
}
