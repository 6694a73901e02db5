//! Vectors that are skipped.
use anyhow::{Result, ensure};
use io_vector::{IoVec, Piece};
use std::alloc::Global;
use std::rt::Clock;
use std::time::{Duration, Instant};

/// A vector of so many segments of 16 bytes, which share their bytes.
fn vector_of(alloc: Global, n: u32) -> Result<IoVec> {
    let piece = Piece::of_slice(alloc, b"0123456789abcdef")?;
    let mut vector = IoVec::new(alloc);
    for _ in 0..n {
        ensure!(vector.push(piece.share()?).is_ok(), "no memory");
    }
    Ok(vector)
}

/// Skips all bytes, one at a time.
fn skip_all(vector: &mut IoVec) -> Result<()> {
    for _ in 0..vector.size() {
        ensure!(vector.skip(1).is_ok(), "no byte to skip");
    }
    Ok(())
}

/// How long it takes to skip all bytes.
pub(crate) fn skip_time<R: Clock + AllocGlobal>(rt: &R, n: u32) -> Result<Duration> {
    let mut vector = vector_of(rt.alloc(), n)?;
    let start = Instant::now(rt)?;
    skip_all(&mut vector)?;
    let time = start.elapsed(rt)?;
    ensure!(vector.size() == 0, "bytes are left");
    Ok(time)
}
