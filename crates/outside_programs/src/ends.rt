//! The caller's ends of a child's output and input.
ghost use Rattle.std.specs.Prelude.{◌≡◌, ◌<◌, ◌≤◌, ◌++◌, [], drop, length};
ghost use Rattle.outside_programs.specs.Ends.{Gives, GivesFront, HandsFront, InOrder, Notes, Takes};

use crate::counts::Counts;
use crate::growing::CHUNK;
use crate::threads::OutputPart;
use crossbeam_channel::{Receiver, Sender, TryRecvError};
use outside::{ByteLog, Fetched, Offered};
use std::alloc::Global;
use std::sync::Wait;

/// What was read of a child's output, which is given in the order in which it came.
///
/// Its rest is what the chunk holds behind the bytes that are used.
#[derive(Drop)]
pub(crate) struct OutputEnd {
    messages: Option<Receiver<OutputPart>>,
    chunk: Vec<u8>,
    used: usize,
    received: ByteLog,
    pub(crate) given: ByteLog,
    counts: Counts,
    event: u32,
}

impl OutputEnd {
    pub(crate) fn new(
        alloc: Global,
        messages: Receiver<OutputPart>,
        counts: Counts,
        event: u32,
    ) -> Self
        ensures { result.given ≡ [] }
    {
        OutputEnd {
            messages: Some(messages),
            chunk: Vec::new(alloc),
            used: 0,
            received: ByteLog::new(),
            given: ByteLog::new(),
            counts,
            event,
        }
    }

    /// The next bytes, at most `max` of them. The event is lowered once a message is used up.
    pub(crate) fn take<R: Wait>(&mut self, rt: &R, alloc: Global, max: usize) -> Fetched
        requires { 1 ≤ max }
        ensures some { Gives max result }
        ensures order { InOrder self.old.received self.new.received (drop self.old.used self.old.chunk.items) (drop self.new.used self.new.chunk.items) result }
        ensures notes { Notes self.old.given self.new.given result }
    {
        if self.used < self.chunk.len() {
            return self.give(alloc, max);
        }
        let Some(messages) = &self.messages else {
            return Fetched::Failed;
        };
        match messages.try_recv(rt) {
            Ok(OutputPart::Chunk(chunk)) => {
                let chunk = chunk.take(rt).unwrap_or(Vec::new(alloc));
                self.begin(alloc, chunk, max)
            }
            Ok(OutputPart::End) => {
                self.counts.lower(self.event);
                Fetched::End
            }
            Ok(OutputPart::Failed) => {
                self.counts.lower(self.event);
                Fetched::Failed
            }
            Err(TryRecvError::Empty) => Fetched::Again,
            Err(TryRecvError::Disconnected) => Fetched::Failed,
        }
    }

    /// Gives of a chunk that was received.
    fn begin(&mut self, alloc: Global, chunk: Vec<u8>, max: usize) -> Fetched
        requires { 1 ≤ max }
        ensures some { Gives max result }
        ensures front { GivesFront chunk.items (drop self.new.used self.new.chunk.items) result }
        ensures received { self.new.received ≡ self.old.received ++ chunk.items }
        ensures notes { Notes self.old.given self.new.given result }
    {
        self.received.note(chunk.as_slice());
        self.chunk = chunk;
        self.used = 0;
        if self.used < self.chunk.len() {
            return self.give(alloc, max);
        }
        self.counts.lower(self.event);
        Fetched::Again
    }

    /// Gives the next bytes of the chunk, and the chunk itself where all of it is asked for.
    fn give(&mut self, alloc: Global, max: usize) -> Fetched
        requires max { 1 ≤ max }
        requires left { self.old.used < length self.old.chunk.items }
        ensures some { Gives max result }
        ensures front { GivesFront (drop self.old.used self.old.chunk.items) (drop self.new.used self.new.chunk.items) result }
        ensures received { self.new.received ≡ self.old.received }
        ensures notes { Notes self.old.given self.new.given result }
    {
        if self.used == 0 && self.chunk.len() <= max {
            self.counts.lower(self.event);
            self.given.note(self.chunk.as_slice());
            return Fetched::Bytes(std::mem::replace(&mut self.chunk, Vec::new(alloc)));
        }
        let rest = &self.chunk[self.used..];
        let count = max.min(rest.len());
        let Ok(bytes) = Vec::from_slice(alloc, &rest[..count]) else {
            return Fetched::NoMemory;
        };
        self.given.note(bytes.as_slice());
        self.used += count;
        if self.used == self.chunk.len() {
            self.counts.lower(self.event);
        }
        Fetched::Bytes(bytes)
    }

    /// Takes no more messages, so that the reading thread closes the output at its next one.
    pub(crate) fn close(&mut self)
        ensures { self.new.given ≡ self.old.given }
    {
        self.messages = None;
    }
}

/// Where pieces for a child's input go.
#[derive(Drop)]
pub(crate) struct InputEnd {
    pieces: Option<Sender<Vec<u8>>>,
    counts: Counts,
    event: u32,
    pub(crate) given: ByteLog,
}

impl InputEnd {
    pub(crate) fn new(pieces: Sender<Vec<u8>>, counts: Counts, event: u32) -> Self
        ensures { result.given ≡ [] }
    {
        InputEnd {
            pieces: Some(pieces),
            counts,
            event,
            given: ByteLog::new(),
        }
    }

    /// Hands the writing thread one piece, or none where it has as many as it takes.
    pub(crate) fn offer<R: Wait>(&mut self, rt: &R, alloc: Global, bytes: &[u8]) -> Offered
        ensures within { Takes (length bytes.now) result }
        ensures front { HandsFront self.old.given self.new.given bytes.now result }
    {
        if self.pieces.is_none() {
            return Offered::Failed;
        }
        if bytes.is_empty() || !self.counts.is_ready(self.event) {
            return Offered::Took(0);
        }
        let count = bytes.len().min(CHUNK);
        let front = &bytes[..count];
        let Ok(piece) = Vec::from_slice(alloc, front) else {
            return Offered::Failed;
        };
        self.hand(rt, front, piece)
    }

    /// Hands the writing thread a piece, which is a copy of these bytes.
    fn hand<R: Wait>(&mut self, rt: &R, bytes: &[u8], piece: Vec<u8>) -> Offered
        requires copy { piece.items ≡ bytes.now }
        ensures within { Takes (length bytes.now) result }
        ensures front { HandsFront self.old.given self.new.given bytes.now result }
    {
        let Some(pieces) = &self.pieces else {
            return Offered::Failed;
        };
        self.counts.lower(self.event);
        if pieces.send(rt, piece).is_err() {
            self.pieces = None;
            return Offered::Failed;
        }
        self.given.note(bytes);
        Offered::Took(bytes.len())
    }

    /// Sends no more pieces, so that the writing thread closes the input behind those it has.
    pub(crate) fn close(&mut self)
        ensures { self.new.given ≡ self.old.given }
    {
        self.pieces = None;
    }
}
