use crate::checks::{is_right, none_is_wrong};
use io_vector::{IoVec, Past, Piece, PrefixFault};
use std::alloc::Global;

/// What is done with a vector, or seen of it.
#[derive(Clone, Copy)]
enum VectorStep {
    /// So many bytes are dropped, or are too many.
    Skip(u64, Option<Past>),
    /// So many first bytes are these, with a third segment of so many.
    Prefix(u64, &'static [u8], usize),
    /// So many first bytes are more than there are.
    PrefixPast(u64, u64),
    Bytes(&'static [u8]),
    Size(u64),
    Segments(usize),
    IsSend,
}

/// Puts a segment of these bytes behind.
fn pushes(alloc: Global, vector: &mut IoVec, bytes: &[u8]) -> bool {
    match Piece::of_slice(alloc, bytes) {
        Ok(piece) => vector.push(piece).is_ok(),
        Err(_) => false,
    }
}

/// Puts a segment of no bytes behind.
fn pushes_none(vector: &mut IoVec) -> bool {
    vector.push(Piece::empty()).is_ok()
}

/// A vector of one segment, whose bytes come from a list.
fn listed(alloc: Global, bytes: &[u8]) -> Option<IoVec> {
    let piece = Piece::of_vec(bytes.to_vec(alloc).ok()?).ok()?;
    Some(IoVec::of_piece(alloc, piece))
}

/// Puts a vector of these bytes behind.
fn appends(alloc: Global, vector: &mut IoVec, bytes: &[u8]) -> bool {
    match listed(alloc, bytes) {
        Some(other) => vector.append(other).is_ok(),
        None => false,
    }
}

/// A vector of three segments, `head`, none and `body`.
fn framed(alloc: Global) -> Option<IoVec> {
    let mut vector = IoVec::new(alloc);
    let is_made = pushes(alloc, &mut vector, b"head")
        && pushes_none(&mut vector)
        && appends(alloc, &mut vector, b"body");
    is_made.then_some(vector)
}

fn has_bytes(vector: &IoVec, bytes: &[u8]) -> bool {
    matches!(vector.to_vec(), Ok(copy) if copy.as_slice() == bytes)
}

/// Why the first bytes aren't dropped, if they aren't.
fn skip_fault(vector: &mut IoVec, n: u64) -> Option<Past> {
    vector.skip(n).err()
}

/// The length of the third segment.
fn third_len(vector: &IoVec) -> Option<usize> {
    Some(vector.segment(2)?.len())
}

/// Whether so many first bytes are these, with a third segment of so many.
fn has_front(vector: &IoVec, n: u64, bytes: &[u8], third: usize) -> bool {
    match &vector.prefix(n) {
        Ok(front) => has_bytes(front, bytes) && third_len(front) == Some(third),
        Err(_) => false,
    }
}

/// Whether so many first bytes are more than the bytes, of which there are so many.
fn has_no_front(vector: &IoVec, n: u64, wanted: u64) -> bool {
    matches!(&vector.prefix(n), Err(PrefixFault::Past { size }) if *size == wanted)
}

fn is_send<T: Send>(_value: &T) -> bool {
    true
}

/// Whether a step goes so.
fn goes(vector: &mut IoVec, step: VectorStep) -> bool {
    match step {
        VectorStep::Skip(n, past) => skip_fault(vector, n) == past,
        VectorStep::Prefix(n, bytes, third) => has_front(vector, n, bytes, third),
        VectorStep::PrefixPast(n, size) => has_no_front(vector, n, size),
        VectorStep::Bytes(bytes) => has_bytes(vector, bytes),
        VectorStep::Size(size) => vector.size() == size,
        VectorStep::Segments(count) => {
            vector.segments() == count && vector.as_slice().len() == count
        }
        VectorStep::IsSend => is_send(vector),
    }
}

/// The number of the first step that goes otherwise, if one does, or of the step behind the last where memory is wanting.
fn first_wrong(vector: Option<IoVec>, steps: &[VectorStep]) -> Option<usize> {
    let Some(mut vector) = vector else {
        return Some(steps.len());
    };
    for (at, step) in steps.iter().enumerate() {
        if !goes(&mut vector, *step) {
            return Some(at);
        }
    }
    None
}

const SKIPPED: [VectorStep; 4] = [
    VectorStep::Skip(5, None),
    VectorStep::Bytes(b"ody"),
    VectorStep::Segments(1),
    VectorStep::Skip(4, Some(Past { size: 3 })),
];

#[test]
fn a_skip_cuts_one_segment(rt: HostRuntime) {
    none_is_wrong(&rt, first_wrong(framed(rt.alloc()), &SKIPPED));
}

const PREFIXED: [VectorStep; 2] = [
    VectorStep::Prefix(6, b"headbo", 2),
    VectorStep::PrefixPast(9, 8),
];

#[test]
fn a_prefix_shares_its_segments(rt: HostRuntime) {
    none_is_wrong(&rt, first_wrong(framed(rt.alloc()), &PREFIXED));
}

/// A vector that was shared with one that is gone.
fn shared(alloc: Global) -> Option<IoVec> {
    match &framed(alloc) {
        Some(vector) => vector.share().ok(),
        None => None,
    }
}

const SHARED: [VectorStep; 4] = [
    VectorStep::Bytes(b"headbody"),
    VectorStep::Size(8),
    VectorStep::Segments(3),
    VectorStep::IsSend,
];

#[test]
fn a_shared_vector_outlives_the_first(rt: HostRuntime) {
    none_is_wrong(&rt, first_wrong(shared(rt.alloc()), &SHARED));
}

/// Drops all bytes of a piece, whose bytes are these and the shared ones.
fn advance_past(piece: &mut Piece, shared: &Piece, bytes: &[u8]) -> bool {
    let n = piece.len();
    let is_shared = matches!(piece.part(0, n), Ok(part) if part == *shared);
    piece.advance(n);
    n == bytes.len() && is_shared && piece.is_empty() && shared.as_slice() == bytes
}

/// Whether a piece is shared, and then loses its bytes alone.
fn is_shared_and_cut(alloc: Global, bytes: &[u8]) -> bool {
    let Ok(mut piece) = Piece::of_slice(alloc, bytes) else {
        return false;
    };
    match &piece.share() {
        Ok(shared) => advance_past(&mut piece, shared, bytes),
        Err(_) => false,
    }
}

#[test]
fn a_piece_is_shared_and_cut(rt: HostRuntime) {
    is_right(&rt, is_shared_and_cut(rt.alloc(), b"abcd"));
}
