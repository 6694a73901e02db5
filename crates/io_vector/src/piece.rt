ghost use Rattle.std.specs.Prelude.{◌≡◌, ◌^◌, ◌<◌, ◌≤◌, ◌↔◌, [], length, drop, slice_range, nat_eq, IsTrue, IfOk};
ghost use Rattle.std.specs.Cmp.Lexicographic.{pointwise, nat_list_eq_equiv};
ghost use Rattle.std.specs.Cmp.{partial_equiv_from_equiv};

use crate::NoMemory;
use bytes::{Buf, Bytes};
use std::alloc::{AllocError, Global};
use std::marker::Model;

/// Bytes that several owners may share: after the binaries (`ErlDrvBinary`) of erl_driver.
/// No byte of a piece ever changes.
#[derive(Drop)]
pub struct Piece {
    bytes: Bytes,
}

impl Model for Piece {
    ghost use Rattle.std.specs.Prelude.{ℕ, List};

    ghost Value = { List ℕ };

    ghost view = { λ p. p.bytes };
}

impl Piece {
    /// No bytes. It takes no memory.
    pub fn empty() -> Piece
        ensures { result ≡ [] }
    {
        Piece {
            bytes: Bytes::new(),
        }
    }

    /// A copy of the bytes.
    pub fn of_slice(alloc: Global, bytes: &[u8]) -> Result<Piece, NoMemory>
        ensures { IfOk result (λ piece. piece ≡ bytes.now) }
    {
        Ok(Piece {
            bytes: Bytes::copy_from_slice(alloc, bytes)?,
        })
    }

    /// The bytes of the `Vec`, which aren't copied: memory is taken for the count of owners alone.
    pub fn of_vec(bytes: Vec<u8>) -> Result<Piece, NoMemory>
        ensures { IfOk result (λ piece. piece ≡ bytes.items) }
    {
        Ok(Piece {
            bytes: Bytes::from_vec(bytes)?,
        })
    }

    /// Another owner of the same bytes, of which none is copied.
    pub fn share(&self) -> Result<Piece, NoMemory>
        ensures { IfOk result (λ piece. piece ≡ self.now) }
    {
        Ok(self.clone()?)
    }

    /// Another owner of the bytes from place `start` to before place `end`, of which none is copied.
    pub fn part(&self, start: usize, end: usize) -> Result<Piece, NoMemory>
        requires ordered { start ≤ end }
        requires within { end ≤ length self.now }
        ensures { IfOk result (λ piece. piece ≡ slice_range self.now start end) }
    {
        Ok(Piece {
            bytes: self.bytes.slice(start..end)?,
        })
    }

    /// Drops the first `count` bytes. It takes no memory and moves no byte.
    pub fn advance(&mut self, count: usize)
        requires { count ≤ length self.old }
        ensures { self.new ≡ drop count self.old }
    {
        self.bytes.advance(count);
    }

    pub fn len(&self) -> usize
        ensures value { result ≡ length self.now }
        ensures bound { result < 2 ^ 63 }
    {
        self.bytes.len()
    }

    pub fn is_empty(&self) -> bool
        ensures { IsTrue result ↔ (self.now ≡ []) }
    {
        self.bytes.is_empty()
    }

    pub fn as_slice(&self) -> &[u8]
        ensures { result.now ≡ self.now }
    {
        self.bytes.as_slice()
    }
}

impl Default for Piece {
    ghost is_default = { λ piece. piece ≡ [] };

    fn default() -> Piece {
        Piece::empty()
    }
}

/// A clone shares the bytes, as `share` does.
impl Clone for Piece {
    ghost is_clone = { λ piece copy. copy ≡ piece };

    fn clone(&self) -> Result<Piece, AllocError> {
        Ok(Piece {
            bytes: self.bytes.clone()?,
        })
    }
}

impl PartialEq for Piece {
    ghost eq = { pointwise nat_eq };

    ghost laws = { partial_equiv_from_equiv nat_list_eq_equiv };

    fn eq(&self, other: &Self) -> bool {
        self.as_slice() == other.as_slice()
    }
}

impl Eq for Piece {
    ghost laws = { nat_list_eq_equiv };
}
