ghost use Rattle.std.specs.Prelude.{◌≡◌, ◌≢◌, ◌+◌, ◌<◌, ◌≤◌, ℕ, length, drop, slice_index, IfOk, OnOk};
ghost use Rattle.packet_framing.specs.Joined.{bytes_of};
ghost use Rattle.packet_framing.specs.Lines.{line_messages, line_rest};
ghost use Rattle.packet_framing.specs.Reading.{ReadsTo, ReadsInLine};
ghost use Rattle.packet_framing.specs.Unframed.{IsOpenLine};

use crate::Flag;
use crate::joined::Joined;
use crate::reading::Reading;
use io_vector::NoMemory;
use memchr::memchr;
use std::alloc::Global;

const LINE_END: u8 = 10;

/// The messages of the bytes in pieces of lines. The bytes that are held aren't looked at again.
pub(crate) fn read_lines(alloc: Global, limit: u32, joined: &Joined) -> Result<Reading, NoMemory>
    requires some { 0 < limit }
    requires open { IsOpenLine limit joined.now.held.now }
    ensures messages { IfOk result (λ r. r.messages.items ≡ line_messages limit (bytes_of joined.now)) }
    ensures rest { IfOk result (λ r. drop r.rest (bytes_of joined.now) ≡ line_rest limit (bytes_of joined.now)) }
    ensures within { IfOk result (λ r. r.rest ≤ length (bytes_of joined.now)) }
{
    let mut reading = Reading {
        messages: Vec::new(alloc),
        rest: 0,
    };
    let mut at = joined.held.len();
    while at < joined.len() {
        at = read_line(alloc, limit, joined, at, &mut reading)?;
    }
    Ok(reading)
}

/// Reads on from a place of the chunk until behind the next line end, or up to the end of the bytes,
/// and answers the place where that is.
fn read_line(
    alloc: Global,
    limit: u32,
    joined: &Joined,
    at: usize,
    reading: &mut Reading,
) -> Result<usize, NoMemory>
    requires some { 0 < limit }
    requires there { at < length (bytes_of joined.now) }
    requires chunk { length joined.now.held.now ≤ at }
    requires read { ReadsTo limit (bytes_of joined.now) at reading.old.rest reading.old.messages.items }
    ensures read { IfOk result (λ next. ReadsTo limit (bytes_of joined.now) next reading.new.rest reading.new.messages.items) }
    ensures on { IfOk result (λ next. at < next) }
    ensures within { IfOk result (λ next. next ≤ length (bytes_of joined.now)) }
{
    let held = joined.held.len();
    let end = held + line_end(joined.chunk.as_slice(), at - held);
    cut_pieces(alloc, limit, joined, end, reading)?;
    if end == joined.len() {
        return Ok(end);
    }
    let line = joined.message(alloc, Flag::Eol, reading.rest, end)?;
    reading.messages.push(line)?;
    reading.rest = end + 1;
    Ok(end + 1)
}

/// Where the first line end from a place on stands, or the length of the bytes.
fn line_end(bytes: &[u8], from: usize) -> usize
    requires { from ≤ length bytes.now }
    ensures on { from ≤ result }
    ensures within { result ≤ length bytes.now }
    ensures before { (i : ℕ) → from ≤ i → i < result → slice_index bytes.now i ≢ 10 }
    ensures stops { result < length bytes.now → slice_index bytes.now result ≡ 10 }
{
    match memchr(LINE_END, &bytes[from..]) {
        Some(at) => from + at,
        None => bytes.len(),
    }
}

/// Tells the full pieces before place `end` of a line that doesn't end before it. A full piece is told only
/// once its line goes on, since a line of exactly `limit` bytes is one message.
fn cut_pieces(
    alloc: Global,
    limit: u32,
    joined: &Joined,
    end: usize,
    reading: &mut Reading,
) -> Result<(), NoMemory>
    requires some { 0 < limit }
    requires within { end ≤ length (bytes_of joined.now) }
    requires read { ReadsInLine limit (bytes_of joined.now) end reading.old.rest reading.old.messages.items }
    ensures { OnOk result (ReadsTo limit (bytes_of joined.now) end reading.new.rest reading.new.messages.items) }
{
    let limit = limit as usize;
    while end - reading.rest > limit {
        let cut = reading.rest + limit;
        let piece = joined.message(alloc, Flag::Noeol, reading.rest, cut)?;
        reading.messages.push(piece)?;
        reading.rest = cut;
    }
    Ok(())
}
