//! The queue of a driver, by the calls of its context.
ghost use Rattle.std.specs.Prelude.{◌≡◌, ◌+◌, ◌^◌, ◌<◌, ◌++◌, length, OnOk, OnErr};

use crate::checks::{is_right, none_is_wrong};
use crate::port::{context, vector};
use driver_queue::{DeqPast, DriverQueue, EnqFault};
use port_driver::DriverCtx;
use port_model::{NoMemory, Piece};
use std::alloc::Global;

/// A call of a context for its queue.
#[derive(Clone, Copy)]
enum QueueCall {
    /// A vector of these segments is put behind, but for so many bytes, or is refused.
    Enqv(&'static [&'static [u8]], u64, Option<EnqFault>),
    /// The same in front.
    Pushqv(&'static [&'static [u8]], u64, Option<EnqFault>),
    Enq(&'static [u8]),
    Pushq(&'static [u8]),
    /// So many bytes are dropped, or are too many.
    Deq(u64, Option<DeqPast>),
    /// The whole queue becomes these bytes.
    Join(&'static [u8]),
    Clear,
}

/// What is seen of a queue.
#[derive(Clone, Copy)]
enum QueueSight {
    Bytes(&'static [u8]),
    HasTwoSegments(bool),
    IsDrained,
}

#[derive(Clone, Copy)]
enum DriverQueueStep {
    Make(QueueCall),
    See(QueueSight),
}

/// A context without bytes.
fn empty(alloc: Global) -> Option<DriverCtx> {
    context(alloc, 0, DriverQueue::new(alloc))
}

/// Puts two pieces behind the bytes of the queue, once there is room for both: neither is refused.
fn put_two(ctx: &mut DriverCtx, first: Piece, second: Piece) -> Result<(), NoMemory>
    requires { length ctx.old.queue + (length first + length second) < 2 ^ 63 }
    ensures ok { OnOk result (ctx.new ≡ record ctx.old { queue = ctx.old.queue ++ (first ++ second) }) }
    ensures err { OnErr result (ctx.new ≡ ctx.old) }
{
    let queue = ctx.reserve(2)?;
    let Ok(()) = queue.enq(first) else {
        unreachable!()
    };
    let Ok(()) = queue.enq(second) else {
        unreachable!()
    };
    Ok(())
}

/// A context in whose queue two pieces were put, `ab` and `c`.
fn reserved(alloc: Global) -> Option<DriverCtx> {
    let mut ctx = context(alloc, 0, DriverQueue::new(alloc))?;
    let first = Piece::of_slice(alloc, b"ab").ok()?;
    let second = Piece::of_slice(alloc, b"c").ok()?;
    put_two(&mut ctx, first, second).ok()?;
    Some(ctx)
}

/// Why a vector isn't put behind, if it isn't.
fn enqv_fault(
    alloc: Global,
    ctx: &mut DriverCtx,
    segments: &[&[u8]],
    skip: u64,
) -> Option<EnqFault> {
    match vector(alloc, segments) {
        Some(vector) => ctx.enqv(&vector, skip).err(),
        None => Some(EnqFault::NoMemory),
    }
}

/// Why a vector isn't put in front, if it isn't.
fn pushqv_fault(
    alloc: Global,
    ctx: &mut DriverCtx,
    segments: &[&[u8]],
    skip: u64,
) -> Option<EnqFault> {
    match vector(alloc, segments) {
        Some(vector) => ctx.pushqv(&vector, skip).err(),
        None => Some(EnqFault::NoMemory),
    }
}

/// Whether these bytes are put behind.
fn enqs(alloc: Global, ctx: &mut DriverCtx, bytes: &[u8]) -> bool {
    match Piece::of_slice(alloc, bytes) {
        Ok(piece) => ctx.enq(piece).is_ok(),
        Err(_) => false,
    }
}

/// Whether these bytes are put in front.
fn pushes(alloc: Global, ctx: &mut DriverCtx, bytes: &[u8]) -> bool {
    match Piece::of_slice(alloc, bytes) {
        Ok(piece) => ctx.pushq(piece).is_ok(),
        Err(_) => false,
    }
}

/// Why bytes aren't dropped, if they aren't.
fn deq_fault(ctx: &mut DriverCtx, count: u64) -> Option<DeqPast> {
    ctx.deq(count).err()
}

/// Whether the whole queue becomes these bytes.
fn joins(ctx: &mut DriverCtx, wanted: &[u8]) -> bool {
    matches!(&ctx.join_queue(), Ok(bytes) if bytes.as_slice() == wanted)
}

/// Whether the queue has these bytes.
fn has(ctx: &DriverCtx, wanted: &[u8]) -> bool {
    matches!(&ctx.queue().to_piece(), Ok(bytes) if bytes.as_slice() == wanted)
}

fn has_two_segments(ctx: &DriverCtx) -> bool {
    ctx.queue().peekq(1).is_some()
}

/// Whether a call ends so.
fn makes(alloc: Global, ctx: &mut DriverCtx, call: QueueCall) -> bool {
    match call {
        QueueCall::Enqv(segments, skip, fault) => enqv_fault(alloc, ctx, segments, skip) == fault,
        QueueCall::Pushqv(segments, skip, fault) => {
            pushqv_fault(alloc, ctx, segments, skip) == fault
        }
        QueueCall::Enq(bytes) => enqs(alloc, ctx, bytes),
        QueueCall::Pushq(bytes) => pushes(alloc, ctx, bytes),
        QueueCall::Deq(count, past) => deq_fault(ctx, count) == past,
        QueueCall::Join(wanted) => joins(ctx, wanted),
        QueueCall::Clear => {
            ctx.clear_queue();
            true
        }
    }
}

/// Whether the queue shows this.
fn shows(ctx: &DriverCtx, sight: QueueSight) -> bool {
    match sight {
        QueueSight::Bytes(wanted) => has(ctx, wanted),
        QueueSight::HasTwoSegments(wanted) => has_two_segments(ctx) == wanted,
        QueueSight::IsDrained => ctx.is_drained(),
    }
}

/// The number of the first step of an empty queue that shows something else, if one does, or of the step behind the last where memory is
/// wanting.
fn first_wrong(alloc: Global, steps: &[DriverQueueStep]) -> Option<usize> {
    let Some(mut ctx) = empty(alloc) else {
        return Some(steps.len());
    };
    for (at, step) in steps.iter().enumerate() {
        let goes = match *step {
            DriverQueueStep::Make(call) => makes(alloc, &mut ctx, call),
            DriverQueueStep::See(sight) => shows(&ctx, sight),
        };
        if !goes {
            return Some(at);
        }
    }
    None
}

/// The queue has `ab` and `c` then.
const QUEUED: DriverQueueStep = DriverQueueStep::Make(QueueCall::Enqv(&[b"ab", b"c"], 0, None));

const BEHIND: [DriverQueueStep; 5] = [
    QUEUED,
    DriverQueueStep::Make(QueueCall::Enqv(&[b"xy", b"z"], 1, None)),
    DriverQueueStep::See(QueueSight::Bytes(b"abcyz")),
    DriverQueueStep::Make(QueueCall::Enqv(&[b"xy", b"z"], 4, Some(EnqFault::SkipPast { size: 3 }))),
    DriverQueueStep::See(QueueSight::Bytes(b"abcyz")),
];

#[test]
fn a_vector_is_put_behind_but_for_what_is_skipped(rt: HostRuntime) {
    none_is_wrong(&rt, first_wrong(rt.alloc(), &BEHIND));
}

const BOTH_ENDS: [DriverQueueStep; 4] = [
    QUEUED,
    DriverQueueStep::Make(QueueCall::Enq(b"z")),
    DriverQueueStep::Make(QueueCall::Pushq(b"x")),
    DriverQueueStep::See(QueueSight::Bytes(b"xabcz")),
];

#[test]
fn pieces_are_put_behind_and_in_front(rt: HostRuntime) {
    none_is_wrong(&rt, first_wrong(rt.alloc(), &BOTH_ENDS));
}

const IN_FRONT: [DriverQueueStep; 3] = [
    QUEUED,
    DriverQueueStep::Make(QueueCall::Pushqv(&[b"xy", b"z"], 1, None)),
    DriverQueueStep::See(QueueSight::Bytes(b"yzabc")),
];

#[test]
fn a_vector_is_put_in_front_in_its_order(rt: HostRuntime) {
    none_is_wrong(&rt, first_wrong(rt.alloc(), &IN_FRONT));
}

/// Whether reserved room takes two pieces.
fn takes_two(alloc: Global) -> bool {
    match &reserved(alloc) {
        Some(ctx) => has(ctx, b"abc"),
        None => false,
    }
}

#[test]
fn reserved_room_takes_two_pieces(rt: HostRuntime) {
    is_right(&rt, takes_two(rt.alloc()));
}

const DROPPED: [DriverQueueStep; 6] = [
    QUEUED,
    DriverQueueStep::Make(QueueCall::Deq(4, Some(DeqPast { size: 3 }))),
    DriverQueueStep::Make(QueueCall::Deq(1, None)),
    DriverQueueStep::See(QueueSight::Bytes(b"bc")),
    DriverQueueStep::Make(QueueCall::Deq(2, None)),
    DriverQueueStep::See(QueueSight::IsDrained),
];

#[test]
fn first_bytes_are_dropped(rt: HostRuntime) {
    none_is_wrong(&rt, first_wrong(rt.alloc(), &DROPPED));
}

const JOINED: [DriverQueueStep; 5] = [
    QUEUED,
    DriverQueueStep::See(QueueSight::HasTwoSegments(true)),
    DriverQueueStep::Make(QueueCall::Join(b"abc")),
    DriverQueueStep::See(QueueSight::HasTwoSegments(false)),
    DriverQueueStep::Make(QueueCall::Join(b"abc")),
];

#[test]
fn the_whole_queue_becomes_one_piece(rt: HostRuntime) {
    none_is_wrong(&rt, first_wrong(rt.alloc(), &JOINED));
}

const CLEARED: [DriverQueueStep; 4] = [
    QUEUED,
    DriverQueueStep::Make(QueueCall::Clear),
    DriverQueueStep::See(QueueSight::IsDrained),
    DriverQueueStep::Make(QueueCall::Join(b"")),
];

#[test]
fn a_cleared_queue_is_drained(rt: HostRuntime) {
    none_is_wrong(&rt, first_wrong(rt.alloc(), &CLEARED));
}
