//! Driver queues that are filled and emptied.
use anyhow::{Result, ensure};
use driver_queue::DriverQueue;
use io_vector::Piece;
use std::alloc::Global;
use std::rt::Clock;
use std::time::{Duration, Instant};

/// A queue of so many segments of one byte, put at the back one by one.
fn queue_of(alloc: Global, n: u32) -> Result<DriverQueue> {
    let piece = Piece::of_slice(alloc, b"x")?;
    let mut queue = DriverQueue::new(alloc);
    for _ in 0..n {
        ensure!(queue.enq(piece.share()?).is_ok(), "no memory");
    }
    Ok(queue)
}

/// Drops all bytes, one at a time.
fn deq_all(queue: &mut DriverQueue) -> Result<()> {
    for _ in 0..queue.sizeq() {
        ensure!(queue.deq(1).is_ok(), "no byte to drop");
    }
    Ok(())
}

/// Puts so many pieces in front, one at a time.
fn push_all(queue: &mut DriverQueue, piece: &Piece, n: u32) -> Result<()> {
    for _ in 0..n {
        ensure!(queue.pushq(piece.share()?).is_ok(), "no memory");
    }
    Ok(())
}

/// How long it takes to drop all bytes.
pub(crate) fn deq_time<R: Clock + AllocGlobal>(rt: &R, n: u32) -> Result<Duration> {
    let mut queue = queue_of(rt.alloc(), n)?;
    let start = Instant::now(rt)?;
    deq_all(&mut queue)?;
    Ok(start.elapsed(rt)?)
}

/// How long it takes to put so many pieces in front of as many.
pub(crate) fn pushq_time<R: Clock + AllocGlobal>(rt: &R, n: u32) -> Result<Duration> {
    let piece = Piece::of_slice(rt.alloc(), b"y")?;
    let mut queue = queue_of(rt.alloc(), n)?;
    let start = Instant::now(rt)?;
    push_all(&mut queue, &piece, n)?;
    Ok(start.elapsed(rt)?)
}
