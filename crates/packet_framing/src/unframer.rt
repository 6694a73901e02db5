ghost use Rattle.std.specs.Prelude.{◌≡◌, ◌≤◌, ◌++◌, ℕ, [], length, drop, true, false, IfOk, IfErr, OnOk, OnErr};
ghost use Rattle.std.specs.List.{concat};
ghost use Rattle.packet_framing.specs.Joined.{bytes_of};
ghost use Rattle.packet_framing.specs.Messages.{IsServed, IsMessages, StreamMessages, last_message, rest_of};
ghost use Rattle.packet_framing.specs.Reading.{ReadFails};
ghost use Rattle.packet_framing.specs.Unframed.{Unframes, HasOversize, IsHeld, FeedFails, EndFails, RunFails, fresh};

use crate::joined::Joined;
use crate::lines::read_lines;
use crate::packets::read_packets;
use crate::reading::Reading;
use crate::{Flag, Message, Mode, UnframeFault};
use io_vector::{NoMemory, Piece};
use std::alloc::Global;
use std::marker::Model;

/// Finds the messages in bytes that come in chunks. The cutting doesn't matter: in packet and line
/// mode the messages so far, and the bytes that are held back, are those of all bytes so far.
///
/// In packet modes each whole frame is a plain message, without its header. In line mode each line
/// is a message with the flag `Eol`, without its line end, byte 10; a longer line comes in pieces of
/// `L` bytes with the flag `Noeol`, and a last one with `Eol`. In stream mode each chunk that isn't
/// empty is a plain message.
///
/// Its costs grow with the bytes that come: those that are held back aren't copied or looked at
/// again for each chunk.
#[derive(Drop)]
pub struct Unframer {
    alloc: Global,
    mode: Mode,
    held: Vec<u8>,
    oversize: Option<u64>,
}

impl Model for Unframer {
    ghost use Rattle.packet_framing.specs.Messages.{IsServed};
    ghost use Rattle.packet_framing.specs.Unframed.{Unframed, IsHeld};

    ghost Value = { Unframed };

    ghost view = { λ u. record { mode = u.mode; held = u.held.items; oversize = u.oversize } };

    ghost invariant = { λ u. IsServed u.mode × IsHeld u.mode u.held.items };
}

impl Unframer {
    /// An unframer that got no bytes. It takes no memory.
    pub fn new(alloc: Global, mode: Mode) -> Unframer
        requires { IsServed mode }
        ensures { result ≡ fresh mode }
    {
        Unframer {
            alloc,
            mode,
            held: Vec::new(alloc),
            oversize: None,
        }
    }

    /// The messages that the chunk makes whole. Those that lie in it share its bytes.
    ///
    /// A header that tells more than 262,143 bytes is refused, with the messages before it in the
    /// same chunk, and so is every later call. Want of memory leaves the unframer as it was.
    pub fn feed(&mut self, chunk: &Piece) -> Result<Vec<Message>, UnframeFault>
        ensures served { OnOk result (self.old.oversize ≡ None) }
        ensures messages { IfOk result (λ told. Unframes self.old.mode (self.old.held ++ chunk.now) told.items self.new.held) }
        ensures new { OnOk result (self.new ≡ record self.old { held = rest_of self.old.mode (self.old.held ++ chunk.now) }) }
        ensures fault { IfErr result (FeedFails self.old chunk.now self.new) }
    {
        if let Some(len) = self.oversize {
            return Err(UnframeFault::Oversize { len });
        }
        let joined = Joined {
            held: self.held.as_slice(),
            chunk,
        };
        match read(self.alloc, self.mode, &joined) {
            Ok(reading) => {
                hold(self.alloc, &mut self.held, chunk, reading.rest)?;
                Ok(reading.messages)
            }
            Err(UnframeFault::Oversize { len }) => {
                self.oversize = Some(len);
                Err(UnframeFault::Oversize { len })
            }
            Err(UnframeFault::NoMemory) => Err(UnframeFault::NoMemory),
        }
    }

    /// The last message, once no more bytes come: in line mode the rest of a line, if it isn't empty,
    /// with the flag `Noeol`. A cut frame is dropped.
    pub fn end(&mut self) -> Result<Vec<Message>, UnframeFault>
        ensures served { OnOk result (self.old.oversize ≡ None) }
        ensures messages { IfOk result (λ told. told.items ≡ last_message self.old.mode self.old.held) }
        ensures new { OnOk result (self.new ≡ fresh self.old.mode) }
        ensures fault { IfErr result (EndFails self.old) }
        ensures err { OnErr result (self.new ≡ self.old) }
    {
        if let Some(len) = self.oversize {
            return Err(UnframeFault::Oversize { len });
        }
        let mut messages = Vec::new(self.alloc);
        if let Mode::Line(_) = self.mode {
            if !self.held.is_empty() {
                messages.push(Message {
                    flag: Flag::Noeol,
                    bytes: Piece::of_slice(self.alloc, self.held.as_slice())?,
                })?;
            }
        }
        self.held.clear();
        Ok(messages)
    }
}

/// What the mode finds in the bytes.
fn read(alloc: Global, mode: Mode, joined: &Joined) -> Result<Reading, UnframeFault>
    requires served { IsServed mode }
    requires held { IsHeld mode joined.now.held.now }
    ensures messages { IfOk result (λ r. Unframes mode (bytes_of joined.now) r.messages.items (drop r.rest (bytes_of joined.now))) }
    ensures within { IfOk result (λ r. r.rest ≤ length (bytes_of joined.now)) }
    ensures fault { IfErr result (ReadFails mode (bytes_of joined.now)) }
{
    match mode {
        Mode::Line(limit) => Ok(read_lines(alloc, limit, joined)?),
        Mode::Stream => Ok(read_stream(alloc, joined)?),
        Mode::Packet1 | Mode::Packet2 | Mode::Packet4 => read_packets(alloc, mode, joined),
    }
}

fn read_stream(alloc: Global, joined: &Joined) -> Result<Reading, NoMemory>
    requires { joined.now.held.now ≡ [] }
    ensures messages { IfOk result (λ r. StreamMessages (bytes_of joined.now) r.messages.items) }
    ensures rest { IfOk result (λ r. r.rest ≡ length (bytes_of joined.now)) }
{
    let mut messages = Vec::new(alloc);
    if !joined.chunk.is_empty() {
        messages.push(joined.message(alloc, Flag::Plain, 0, joined.len())?)?;
    }
    Ok(Reading {
        messages,
        rest: joined.len(),
    })
}

/// Holds the bytes back from a place on, of those that are held and the chunk.
fn hold(alloc: Global, held: &mut Vec<u8>, chunk: &Piece, from: usize) -> Result<(), NoMemory>
    requires { from ≤ length (held.old.items ++ chunk.now) }
    ensures ok { OnOk result (held.new.items ≡ drop from (held.old.items ++ chunk.now)) }
    ensures err { OnErr result (held.new.items ≡ held.old.items) }
{
    if from == 0 {
        held.extend_from_slice(chunk.as_slice())?;
        return Ok(());
    }
    let joined = Joined {
        held: held.as_slice(),
        chunk,
    };
    let rest = joined.copy(alloc, from, joined.len())?;
    *held = rest;
    Ok(())
}

/// The messages of these chunks, fed one after another, while more may come; and the unframer, to which more can be fed.
pub fn unframe_so_far(
    alloc: Global,
    mode: Mode,
    chunks: &[Piece],
) -> Result<(Unframer, Vec<Message>), UnframeFault>
    requires { IsServed mode }
    ensures messages { IfOk result (λ fed. IsMessages mode (concat chunks.now) false fed.1.items) }
    ensures unframer { IfOk result (λ fed. fed.0 ≡ record (fresh mode) { held = rest_of mode (concat chunks.now) }) }
    ensures told { IfOk result (λ fed. Unframes mode (concat chunks.now) fed.1.items fed.0.held) }
    ensures served { OnOk result ((len : ℕ) → ¬ HasOversize mode (concat chunks.now) len) }
    ensures fault { IfErr result (RunFails mode (concat chunks.now)) }
{
    let mut unframer = Unframer::new(alloc, mode);
    let mut messages = Vec::new(alloc);
    for chunk in chunks {
        messages.append(&mut unframer.feed(chunk)?)?;
    }
    Ok((unframer, messages))
}

/// The messages of a whole run: of these chunks, and then the end.
pub fn unframe(alloc: Global, mode: Mode, chunks: &[Piece]) -> Result<Vec<Message>, UnframeFault>
    requires { IsServed mode }
    ensures messages { IfOk result (λ told. IsMessages mode (concat chunks.now) true told.items) }
    ensures served { OnOk result ((len : ℕ) → ¬ HasOversize mode (concat chunks.now) len) }
    ensures fault { IfErr result (RunFails mode (concat chunks.now)) }
{
    let (mut unframer, mut messages) = unframe_so_far(alloc, mode, chunks)?;
    messages.append(&mut unframer.end()?)?;
    Ok(messages)
}
