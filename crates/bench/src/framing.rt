//! Frames and lines that are found in streams of bytes.
use anyhow::{Result, bail};
use io_vector::{IoVec, Piece};
use packet_framing::{Mode, Unframer, frame};
use std::alloc::Global;
use std::rt::Clock;
use std::time::{Duration, Instant};

const LARGE_CHUNK: usize = 65_536;

/// At least so many bytes in the longest frames or lines of the mode.
fn text_of(alloc: Global, mode: Mode, bytes: u32) -> Result<Vec<u8>> {
    let unit = unit_of(alloc, mode, bytes)?;
    let mut text = Vec::new(alloc);
    for _ in 0..bytes as usize / unit.len().max(1) + 1 {
        text.extend_from_slice(unit.as_slice())?;
    }
    Ok(text)
}

/// One frame or line: the longest of the mode, but for small texts.
fn unit_of(alloc: Global, mode: Mode, bytes: u32) -> Result<Vec<u8>> {
    let longest = match mode {
        Mode::Packet1 => 255,
        Mode::Packet2 => 65_535,
        Mode::Packet4 | Mode::Line(_) | Mode::Stream => 262_143,
    };
    let mut content = vec![in alloc; b'a'; longest.min(bytes / 2) as usize]?;
    if let Mode::Line(_) = mode {
        content.push(b'\n')?;
    }
    framed(alloc, mode, content)
}

/// The frame of a message.
fn framed(alloc: Global, mode: Mode, content: Vec<u8>) -> Result<Vec<u8>> {
    let sent = frame(
        alloc,
        mode,
        &IoVec::of_piece(alloc, Piece::of_vec(content)?),
    )?;
    Ok(sent.to_vec()?)
}

/// Feeds a text in chunks of so many bytes, which share its bytes, and counts the messages.
fn feed_all(alloc: Global, mode: Mode, text: &Piece, chunk_len: usize) -> Result<usize> {
    if !mode.is_served() {
        bail!("no such mode");
    }
    let mut unframer = Unframer::new(alloc, mode);
    let mut messages = 0usize;
    let mut rest = text.share()?;
    // Each chunk has one byte at least.
    for _ in 0..text.len() {
        if rest.is_empty() {
            break;
        }
        let len = chunk_len.max(1).min(rest.len());
        messages = messages.saturating_add(unframer.feed(&rest.part(0, len)?)?.len());
        rest.advance(len);
    }
    Ok(messages.saturating_add(unframer.end()?.len()))
}

/// How long it takes to feed so many bytes in the longest frames or lines of the mode, in large chunks or byte by byte.
pub(crate) fn feed_time<R: Clock + AllocGlobal>(
    rt: &R,
    mode: Mode,
    bytes: u32,
    bytewise: bool,
) -> Result<Duration> {
    let text = Piece::of_vec(text_of(rt.alloc(), mode, bytes)?)?;
    let chunk = if bytewise { 1 } else { LARGE_CHUNK };
    let start = Instant::now(rt)?;
    feed_all(rt.alloc(), mode, &text, chunk)?;
    Ok(start.elapsed(rt)?)
}
