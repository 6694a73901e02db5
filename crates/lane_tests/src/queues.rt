ghost use Rattle.std.specs.Prelude.{◌≡◌, ◌+◌, ◌^◌, ◌<◌, ◌≤◌, ◌++◌, IfSome, length};
ghost use Rattle.std.specs.List.{concat};
ghost use Rattle.std.specs.Vec.{vec_len};

use crate::checks::{is_right, none_is_wrong};
use driver_queue::{DeqPast, DriverQueue, EnqFault};
use io_vector::{IoVec, Piece};
use std::alloc::Global;

/// What is done with a queue, or seen of it.
#[derive(Clone, Copy)]
enum QueueStep {
    /// A vector of `cd` and `e` is put behind but for so many bytes, or is refused.
    Enqv(u64, Option<EnqFault>),
    /// The same in front.
    Pushqv(u64, Option<EnqFault>),
    /// A segment of these bytes is put in front.
    Pushq(&'static [u8]),
    /// So many bytes are dropped, or are too many.
    Deq(u64, Option<DeqPast>),
    Clear,
    Bytes(&'static [u8]),
    /// The first bytes are these.
    Front(&'static [u8]),
    Size(u64),
    /// The first segment has so many bytes.
    FirstLen(usize),
    IsEmpty,
    IsSend,
}

/// A queue of one segment.
fn queue_of(alloc: Global, bytes: &[u8]) -> Option<DriverQueue> {
    let piece = Piece::of_slice(alloc, bytes).ok()?;
    let mut queue = DriverQueue::new(alloc);
    let is_put = queue.enq(piece).is_ok();
    is_put.then_some(queue)
}

/// A vector of two segments, `cd` and `e`.
fn cde(alloc: Global) -> Option<IoVec> {
    let first = Piece::of_slice(alloc, b"cd").ok()?;
    let second = Piece::of_slice(alloc, b"e").ok()?;
    let mut vector = IoVec::of_piece(alloc, first);
    let is_put = vector.push(second).is_ok();
    is_put.then_some(vector)
}

fn has_bytes(queue: &DriverQueue, bytes: &[u8]) -> bool {
    matches!(queue.to_piece(), Ok(piece) if piece.as_slice() == bytes)
}

/// Whether the first bytes are these.
fn has_front(queue: &DriverQueue, bytes: &[u8]) -> bool {
    queue.sizeq() >= bytes.len() as u64
        && matches!(queue.first_bytes(bytes.len() as u64), Ok(piece) if piece.as_slice() == bytes)
}

/// Why the vector isn't put behind the queue without its first bytes, if it isn't.
fn enqv_fault(alloc: Global, queue: &mut DriverQueue, skip: u64) -> Option<EnqFault> {
    match &cde(alloc) {
        Some(vector) => queue.enqv(vector, skip).err(),
        None => Some(EnqFault::NoMemory),
    }
}

/// Why the vector isn't put in front of the queue without its first bytes, if it isn't.
fn pushqv_fault(alloc: Global, queue: &mut DriverQueue, skip: u64) -> Option<EnqFault> {
    match &cde(alloc) {
        Some(vector) => queue.pushqv(vector, skip).err(),
        None => Some(EnqFault::NoMemory),
    }
}

/// Why the first bytes don't leave the queue, if they don't.
fn deq_fault(queue: &mut DriverQueue, n: u64) -> Option<DeqPast> {
    queue.deq(n).err()
}

/// Puts a segment of these bytes in front of the queue.
fn pushes(alloc: Global, queue: &mut DriverQueue, bytes: &[u8]) -> bool {
    match Piece::of_slice(alloc, bytes) {
        Ok(piece) => queue.pushq(piece).is_ok(),
        Err(_) => false,
    }
}

/// The length of the first segment.
fn first_len(queue: &DriverQueue) -> Option<usize> {
    Some(queue.peekq(0)?.len())
}

fn is_send<T: Send>(_value: &T) -> bool {
    true
}

/// Whether a step goes so.
fn goes(alloc: Global, queue: &mut DriverQueue, step: QueueStep) -> bool {
    match step {
        QueueStep::Enqv(skip, fault) => enqv_fault(alloc, queue, skip) == fault,
        QueueStep::Pushqv(skip, fault) => pushqv_fault(alloc, queue, skip) == fault,
        QueueStep::Pushq(bytes) => pushes(alloc, queue, bytes),
        QueueStep::Deq(n, past) => deq_fault(queue, n) == past,
        QueueStep::Clear => {
            queue.clear();
            true
        }
        QueueStep::Bytes(bytes) => has_bytes(queue, bytes),
        QueueStep::Front(bytes) => has_front(queue, bytes),
        QueueStep::Size(size) => queue.sizeq() == size,
        QueueStep::FirstLen(len) => first_len(queue) == Some(len),
        QueueStep::IsEmpty => queue.is_empty(),
        QueueStep::IsSend => is_send(queue),
    }
}

/// The number of the first step of a queue of `ab` that goes otherwise, if one does, or of the step behind the last where memory is
/// wanting.
fn first_wrong(alloc: Global, steps: &[QueueStep]) -> Option<usize> {
    let Some(mut queue) = queue_of(alloc, b"ab") else {
        return Some(steps.len());
    };
    for (at, step) in steps.iter().enumerate() {
        if !goes(alloc, &mut queue, *step) {
            return Some(at);
        }
    }
    None
}

const SKIPPED: [QueueStep; 5] = [
    QueueStep::Enqv(3, None),
    QueueStep::Enqv(4, Some(EnqFault::SkipPast { size: 3 })),
    QueueStep::Bytes(b"ab"),
    QueueStep::Enqv(1, None),
    QueueStep::Bytes(b"abde"),
];

#[test]
fn a_skip_past_the_vector_is_refused_and_the_queue_stays(rt: HostRuntime) {
    none_is_wrong(&rt, first_wrong(rt.alloc(), &SKIPPED));
}

const DROPPED: [QueueStep; 4] = [
    QueueStep::Deq(3, Some(DeqPast { size: 2 })),
    QueueStep::Bytes(b"ab"),
    QueueStep::Deq(1, None),
    QueueStep::Bytes(b"b"),
];

#[test]
fn a_deq_past_the_queue_is_refused(rt: HostRuntime) {
    none_is_wrong(&rt, first_wrong(rt.alloc(), &DROPPED));
}

const PUSHED: [QueueStep; 3] = [
    QueueStep::Pushq(b"z"),
    QueueStep::Bytes(b"zab"),
    QueueStep::FirstLen(1),
];

#[test]
fn pushq_stands_in_front(rt: HostRuntime) {
    none_is_wrong(&rt, first_wrong(rt.alloc(), &PUSHED));
}

const PUSHED_IN_ORDER: [QueueStep; 4] = [
    QueueStep::Pushqv(1, None),
    QueueStep::Bytes(b"deab"),
    QueueStep::Size(4),
    QueueStep::IsSend,
];

#[test]
fn pushqv_keeps_the_order(rt: HostRuntime) {
    none_is_wrong(&rt, first_wrong(rt.alloc(), &PUSHED_IN_ORDER));
}

const JOINED: [QueueStep; 5] = [
    QueueStep::Enqv(0, None),
    QueueStep::Front(b"a"),
    QueueStep::Front(b"abc"),
    QueueStep::Clear,
    QueueStep::IsEmpty,
];

#[test]
fn first_bytes_are_shared_or_joined(rt: HostRuntime) {
    none_is_wrong(&rt, first_wrong(rt.alloc(), &JOINED));
}

/// Puts pieces at the back of a queue that has room for them: no call is refused.
fn enq_all(queue: &mut DriverQueue, pieces: Vec<Piece>)
    requires room { vec_len pieces ≤ queue.old.room }
    requires small { length (concat queue.old.segments) + length (concat pieces.items) < 2 ^ 63 }
    ensures { queue.new.segments ≡ queue.old.segments ++ pieces.items }
{
    for piece in pieces {
        let Ok(()) = queue.enq(piece) else {
            unreachable!()
        };
    }
}

/// The pieces `ab` and `c`.
fn two_pieces(alloc: Global) -> Option<Vec<Piece>>
    ensures len { IfSome result (λ pieces. vec_len pieces ≡ 2) }
    ensures size { IfSome result (λ pieces. length (concat pieces.items) ≡ 3) }
{
    let first = Piece::of_slice(alloc, b"ab").ok()?;
    let second = Piece::of_slice(alloc, b"c").ok()?;
    vec![in alloc; first, second].ok()
}

/// A queue with room for two pieces, in which both were put.
fn reserved(alloc: Global) -> Option<DriverQueue> {
    let pieces = two_pieces(alloc)?;
    let mut queue = DriverQueue::new(alloc);
    queue.reserve(2).ok()?;
    enq_all(&mut queue, pieces);
    Some(queue)
}

/// Whether reserved room takes both pieces.
fn takes_both(alloc: Global) -> bool {
    match &reserved(alloc) {
        Some(queue) => has_bytes(queue, b"abc"),
        None => false,
    }
}

#[test]
fn reserved_places_are_enough(rt: HostRuntime) {
    is_right(&rt, takes_both(rt.alloc()));
}
