//! A stream whose messages a row tells.
ghost use Rattle.std.specs.Prelude.{◌≡◌, ◌≤◌, ◌<◌, true, length, map, IfOk, OnOk};
ghost use Rattle.io_vector.specs.declared.flag.Flag.TheVariants.{Plain};
ghost use Rattle.packet_framing.specs.Messages.{IsServed};
ghost use Rattle.packet_framing.specs.Lines.{message};
ghost use Rattle.driver_model.specs.Calls.{cut_of};
ghost use Rattle.driver_model.specs.Spawn.{is_cut, pieces, cut_into};
ghost use Rattle.spawn_driver.specs.Recorded.{Adds};
ghost use Rattle.spawn_driver.specs.Steps.{Finds, effects_in};
ghost use Rattle.spawn_driver.specs.Told.{IsCutAs, ReceivesAsTold};
ghost use Rattle.packet_framing.specs.declared.mode.Mode.TheVariants.{Stream};

use crate::kept::Kept;
use crate::unframing::{Found, MOST_TAKEN, report};
use packet_framing::{Message, Mode};
use port_driver::DriverCtx;
use port_model::{Effect, Flag, NoMemory, Piece};
use std::alloc::Global;

/// Whether the messages of a row cut so many bytes: none is empty, and they have so many bytes in all.
fn is_cut(row: &[Effect], size: usize) -> bool
    ensures { result ≡ is_cut (cut_of row.now) size }
{
    let mut left = size;
    for effect in row {
        if let Effect::Message { bytes, .. } = effect {
            if bytes.is_empty() || left < bytes.len() {
                return false;
            }
            left -= bytes.len();
        }
    }
    left == 0
}

/// The bytes in pieces as long as the messages of a row, which cut them.
fn pieces(alloc: Global, bytes: &Piece, row: &[Effect]) -> Result<Vec<Message>, NoMemory>
    requires { is_cut (cut_of row.now) (length bytes.now) ≡ true }
    ensures { IfOk result (λ messages. messages.items ≡ map (message Plain) (pieces (cut_of row.now) bytes.now)) }
{
    let mut messages = Vec::new(alloc);
    let mut left = bytes.share()?;
    for effect in row {
        if let Effect::Message { bytes: told, .. } = effect {
            let piece = left.part(0, told.len())?;
            messages.push(Message {
                flag: Flag::Plain,
                bytes: piece,
            })?;
            left.advance(told.len());
        }
    }
    Ok(messages)
}

/// The bytes as the messages of a row cut them, or as one message where these don't.
fn cut_as_told(alloc: Global, bytes: &Piece, row: &[Effect]) -> Result<Vec<Message>, NoMemory>
    ensures { IfOk result (λ messages. messages.items ≡ map (message Plain) (cut_into (cut_of row.now) bytes.now)) }
{
    if is_cut(row, bytes.len()) {
        return pieces(alloc, bytes, row);
    }
    let mut whole = Vec::new(alloc);
    whole.push(Message {
        flag: Flag::Plain,
        bytes: bytes.share()?,
    })?;
    Ok(whole)
}

impl Kept {
    /// Sends the messages that these bytes make whole. Those of a stream are told by the row.
    pub(crate) fn take_as_told(
        &mut self,
        alloc: Global,
        ctx: &mut DriverCtx,
        bytes: &Piece,
        row: &[Effect],
    ) -> Result<(), NoMemory>
        requires some { 0 < length bytes.now }
        requires within { length bytes.now ≤ 65536 }
        requires effects { length ctx.old.effects ≤ 524288 }
        ensures served { IsServed self.old.config.mode }
        ensures ok { OnOk result (ReceivesAsTold bytes.now row.now self.old self.new ctx.old ctx.new) }
        ensures adds { Adds 131000 ctx.old ctx.new }
    {
        match self.config.mode {
            Mode::Stream => {
                self.count(bytes.len())?;
                let found = self.cut(alloc, bytes, row)?;
                report(ctx, &found)
            }
            _ => self.take(ctx, bytes),
        }
    }

    /// Finds the messages in a stream's bytes, which `taken` counts already, as the row tells them.
    fn cut(&mut self, alloc: Global, bytes: &Piece, row: &[Effect]) -> Result<Found, NoMemory>
        requires stream { self.old.config.mode ≡ Stream }
        requires some { 0 < length bytes.now }
        requires within { length bytes.now ≤ 65536 }
        ensures found { IfOk result (Finds self.old self.new bytes.now) }
        ensures cut { IfOk result (IsCutAs Stream (cut_of row.now) bytes.now) }
        ensures few { IfOk result (λ found. length (effects_in found) ≤ 131000) }
    {
        if self.taken > MOST_TAKEN {
            self.unframer = None;
            return Ok(Found::TooMany);
        }
        if self.unframer.is_none() {
            return Ok(Found::Oversize);
        }
        Ok(Found::Messages(cut_as_told(alloc, bytes, row)?))
    }
}
