ghost use Rattle.std.specs.Prelude.{◌≡◌, ◌+◌, ◌-◌, ◌^◌, ◌<◌, ◌≤◌, ◌↔◌, [], ◌∷◌, ◌++◌, length, take, drop, IsOk, IsSome, IfOk, IfErr, OnOk, OnErr};
ghost use Rattle.std.specs.List.{concat};
ghost use Rattle.std.specs.Slice.{IsItemAt};
ghost use Rattle.smallvec.specs.SmallVec.{small_vec_len};
ghost use Rattle.io_vector.specs.Segments.{segments_within, segments_past};
ghost use Rattle.io_vector.specs.PrefixFault.{PrefixFails};

use crate::{NoMemory, Past, Piece, PrefixFault};
use smallvec::SmallVec;
use std::alloc::Global;
use std::marker::Model;
use std::mem;

/// How many segments a vector holds with no allocation. A history keeps a vector for each command, which has one segment.
const INLINE: usize = 1;

/// The most bytes of one vector, 2^63 - 1.
const MAX_SIZE: u64 = 0x7fff_ffff_ffff_ffff;

/// Bytes in segments, after the I/O vectors (`ErlIOVec`) of erl_driver. It is seen as the list of
/// its segments, and its bytes are those of the segments, joined in order. A segment may be empty.
#[derive(Drop)]
pub struct IoVec {
    // The pieces before `first` were skipped, and are empty.
    pieces: SmallVec<Piece, INLINE>,
    first: usize,
    size: u64,
}

impl Model for IoVec {
    ghost use Rattle.std.specs.Prelude.{ℕ, List, drop};
    ghost use Rattle.io_vector.specs.IoVec.{IsCounted};

    ghost Value = { List (List ℕ) };

    ghost view = { λ v. drop v.first v.pieces.items };

    ghost invariant = { λ v. IsCounted v.pieces.items v.first v.size };
}

impl IoVec {
    /// A vector with no segments. It takes no memory.
    pub fn new(alloc: Global) -> IoVec
        ensures { result ≡ [] }
    {
        IoVec {
            pieces: SmallVec::new(alloc),
            first: 0,
            size: 0,
        }
    }

    /// A vector of one segment. It takes no memory.
    pub fn of_piece(alloc: Global, piece: Piece) -> IoVec
        ensures { result ≡ piece ∷ [] }
    {
        let size = piece.len() as u64;
        let mut pieces = SmallVec::new(alloc);
        pieces.push_reserved(piece);
        IoVec {
            pieces,
            first: 0,
            size,
        }
    }

    /// The number of bytes.
    pub fn size(&self) -> u64
        ensures value { result ≡ length (concat self.now) }
        ensures bound { result < 2 ^ 63 }
    {
        self.size
    }

    /// The number of segments.
    pub fn segments(&self) -> usize
        ensures { result ≡ length self.now }
    {
        self.pieces.len() - self.first
    }

    /// The segment at a place, from 0.
    pub fn segment(&self, at: usize) -> Option<&Piece>
        ensures variant { IsSome result ↔ (at < length self.now) }
        ensures item { IsItemAt self.now at result }
    {
        self.as_slice().get(at)
    }

    /// All segments, in order.
    pub fn as_slice(&self) -> &[Piece]
        ensures { result.now ≡ self.now }
    {
        &self.pieces.as_slice()[self.first..]
    }

    /// Adds a segment at the end. A refused one comes back.
    pub fn push(&mut self, piece: Piece) -> Result<(), (Piece, NoMemory)>
        ensures ok { OnOk result (self.new ≡ self.old ++ piece ∷ []) }
        ensures err { OnErr result (self.new ≡ self.old) }
        ensures back { IfErr result (λ refused. refused.0 ≡ piece) }
    {
        let len = piece.len() as u64;
        if len > MAX_SIZE - self.size {
            return Err((piece, NoMemory));
        }
        match self.pieces.push(piece) {
            Ok(()) => {
                self.size += len;
                Ok(())
            }
            Err(failed) => Err((failed.value, NoMemory)),
        }
    }

    /// Moves the segments of another vector to the end. A refused vector comes back.
    pub fn append(&mut self, mut other: IoVec) -> Result<(), (IoVec, NoMemory)>
        ensures ok { OnOk result (self.new ≡ self.old ++ other) }
        ensures err { OnErr result (self.new ≡ self.old) }
        ensures back { IfErr result (λ refused. refused.0 ≡ other) }
    {
        if other.size > MAX_SIZE - self.size {
            return Err((other, NoMemory));
        }
        remove_front(&mut other.pieces, other.first);
        other.first = 0;
        if self.pieces.append(&mut other.pieces).is_err() {
            return Err((other, NoMemory));
        }
        self.size += mem::replace(&mut other.size, 0);
        Ok(())
    }

    /// Drops the first `n` bytes: segments that lie within them, and the front of one that lies
    /// across. It takes no memory and moves no byte.
    pub fn skip(&mut self, n: u64) -> Result<(), Past>
        ensures variant { IsOk result ↔ (n ≤ length (concat self.old)) }
        ensures bytes { OnOk result (concat self.new ≡ drop n (concat self.old)) }
        ensures segments { OnOk result (self.new ≡ segments_past n self.old) }
        ensures err { OnErr result (self.new ≡ self.old) }
        ensures past { IfErr result (λ refusal. refusal.size ≡ length (concat self.old)) }
    {
        if n > self.size {
            return Err(Past { size: self.size });
        }
        self.first = skip_bytes(&mut self.pieces, self.first, n);
        self.size -= n;
        Ok(())
    }

    /// A vector of the first `n` bytes, which shares them.
    pub fn prefix(&self, n: u64) -> Result<IoVec, PrefixFault>
        ensures within { OnOk result (n ≤ length (concat self.now)) }
        ensures bytes { IfOk result (λ front. concat front ≡ take n (concat self.now)) }
        ensures segments { IfOk result (λ front. front ≡ segments_within n self.now) }
        ensures fault { IfErr result (PrefixFails n (length (concat self.now))) }
    {
        if n > self.size {
            return Err(PrefixFault::Past { size: self.size });
        }
        match share_front(*self.pieces.allocator(), self.as_slice(), n) {
            Ok(pieces) => Ok(IoVec {
                pieces,
                first: 0,
                size: n,
            }),
            Err(NoMemory) => Err(PrefixFault::NoMemory),
        }
    }

    /// A vector of the same segments, which shares their bytes.
    pub fn share(&self) -> Result<IoVec, NoMemory>
        ensures { IfOk result (λ copy. copy ≡ self.now) }
    {
        Ok(IoVec {
            pieces: share_all(*self.pieces.allocator(), self.as_slice())?,
            first: 0,
            size: self.size,
        })
    }

    /// A copy of all bytes, in order.
    pub fn to_vec(&self) -> Result<Vec<u8>, NoMemory>
        ensures { IfOk result (λ bytes. bytes.items ≡ concat self.now) }
    {
        let mut bytes = Vec::with_capacity(*self.pieces.allocator(), self.size as usize)?;
        for piece in self.as_slice() {
            bytes.extend_from_slice(piece.as_slice())?;
        }
        Ok(bytes)
    }
}

/// Skips `count` bytes from the piece at `from` on, and returns where the first piece that is left
/// is now.
fn skip_bytes(pieces: &mut SmallVec<Piece, INLINE>, from: usize, count: u64) -> usize
    requires start { from ≤ small_vec_len pieces.old }
    requires bytes { count ≤ length (concat (drop from pieces.old.items)) }
    ensures within { result ≤ small_vec_len pieces.new }
    ensures left { drop result pieces.new.items ≡ segments_past count (drop from pieces.old.items) }
{
    let first = skip_from(pieces.as_mut_slice(), from, count);
    settle(pieces, first)
}

/// The loop of `skip_bytes`. A piece that was skipped whole is let go of at once.
fn skip_from(pieces: &mut [Piece], from: usize, count: u64) -> usize
    requires start { from ≤ length pieces.old }
    requires bytes { count ≤ length (concat (drop from pieces.old)) }
    ensures within { result ≤ length pieces.new }
    ensures left { drop result pieces.new ≡ segments_past count (drop from pieces.old) }
{
    let mut at = from;
    let mut left = count;
    while left > 0 {
        let len = pieces[at].len() as u64;
        if left < len {
            pieces[at].advance(left as usize);
            return at;
        }
        pieces[at] = Piece::empty();
        at += 1;
        left -= len;
    }
    at
}

/// Removes the pieces before `first` where they are at least half of all, so that a vector keeps no
/// more places than twice its segments, and returns where the first piece is now.
fn settle(pieces: &mut SmallVec<Piece, INLINE>, first: usize) -> usize
    requires { first ≤ small_vec_len pieces.old }
    ensures within { result ≤ small_vec_len pieces.new }
    ensures left { drop result pieces.new.items ≡ drop first pieces.old.items }
{
    if first < pieces.len() - first {
        return first;
    }
    remove_front(pieces, first);
    0
}

fn remove_front(pieces: &mut SmallVec<Piece, INLINE>, count: usize)
    requires { count ≤ small_vec_len pieces.old }
    ensures { pieces.new.items ≡ drop count pieces.old.items }
{
    let left = pieces.len() - count;
    pieces.as_mut_slice().rotate_left(count);
    pieces.truncate(left);
}

/// Shares the first `count` bytes.
fn share_front(
    alloc: Global,
    pieces: &[Piece],
    count: u64,
) -> Result<SmallVec<Piece, INLINE>, NoMemory>
    requires { count ≤ length (concat pieces.now) }
    ensures { IfOk result (λ front. front.items ≡ segments_within count pieces.now) }
{
    let mut front = SmallVec::new(alloc);
    let mut left = count;
    for piece in pieces {
        if left == 0 {
            return Ok(front);
        }
        let len = piece.len() as u64;
        if left < len {
            front.push(piece.part(0, left as usize)?)?;
            return Ok(front);
        }
        front.push(piece.share()?)?;
        left -= len;
    }
    Ok(front)
}

fn share_all(alloc: Global, pieces: &[Piece]) -> Result<SmallVec<Piece, INLINE>, NoMemory>
    ensures { IfOk result (λ shared. shared.items ≡ pieces.now) }
{
    let mut shared = SmallVec::with_capacity(alloc, pieces.len())?;
    for piece in pieces {
        shared.push(piece.share()?)?;
    }
    Ok(shared)
}
