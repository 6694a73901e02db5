//! The messages in the bytes that a program gives.
ghost use Rattle.std.specs.Prelude.{◌≡◌, ◌≤◌, ◌+◌, ◌<◌, length, map, IfOk, OnOk};
ghost use Rattle.driver_model.specs.Spawn.{sent};
ghost use Rattle.spawn_driver.specs.Recorded.{Adds, with_effects};
ghost use Rattle.spawn_driver.specs.Steps.{Finds, effects_in, SendsLast};

use crate::failures::fail;
use crate::kept::Kept;
use packet_framing::{Message, UnframeFault};
use port_driver::DriverCtx;
use port_model::{NoMemory, Piece};

/// The most bytes that are taken from one program.
pub(crate) const MOST_TAKEN: u64 = 33_554_432;

/// The most messages of one callback. No chunk of 65,536 bytes brings so many.
const MOST_MESSAGES: usize = 131_000;

/// What bytes that a program gave bring.
#[derive(Drop)]
pub(crate) enum Found {
    Messages(Vec<Message>),
    /// More bytes were taken in all than may be.
    TooMany,
    /// A header tells too many bytes, or one did before.
    Oversize,
}

/// Sends messages, in their order.
fn send_all(ctx: &mut DriverCtx, messages: &[Message]) -> Result<(), NoMemory>
    requires { length ctx.old.effects + length messages.now < 1048576 }
    ensures ok { OnOk result (ctx.new ≡ with_effects ctx.old (map sent messages.now)) }
    ensures adds { Adds (length messages.now) ctx.old ctx.new }
{
    for message in messages {
        ctx.send(message.flag, &message.bytes)?;
    }
    Ok(())
}

/// Sends what was found, or fails the port.
pub(crate) fn report(ctx: &mut DriverCtx, found: &Found) -> Result<(), NoMemory>
    requires effects { length ctx.old.effects ≤ 524289 }
    requires few { length (effects_in found.now) ≤ 131000 }
    ensures ok { OnOk result (ctx.new ≡ with_effects ctx.old (effects_in found.now)) }
    ensures adds { Adds 131000 ctx.old ctx.new }
{
    match found {
        Found::Messages(messages) => send_all(ctx, messages),
        Found::TooMany => fail(ctx, b"enospc"),
        Found::Oversize => fail(ctx, b"emsgsize"),
    }
}

impl Kept {
    /// Finds the messages that these bytes make whole, which `taken` counts already.
    pub(crate) fn find(&mut self, bytes: &Piece) -> Result<Found, NoMemory>
        ensures found { IfOk result (Finds self.old self.new bytes.now) }
        ensures few { IfOk result (λ found. length (effects_in found) ≤ 131000) }
    {
        if self.taken > MOST_TAKEN {
            self.unframer = None;
            return Ok(Found::TooMany);
        }
        let Some(unframer) = &mut self.unframer else {
            return Ok(Found::Oversize);
        };
        match unframer.feed(bytes) {
            Ok(messages) if messages.len() <= MOST_MESSAGES => Ok(Found::Messages(messages)),
            Ok(_) => Err(NoMemory),
            Err(UnframeFault::NoMemory) => Err(NoMemory),
            Err(UnframeFault::Oversize { .. }) => {
                self.unframer = None;
                Ok(Found::Oversize)
            }
        }
    }

    /// Sends the last message, once the program's output has ended.
    pub(crate) fn send_last(&mut self, ctx: &mut DriverCtx) -> Result<(), NoMemory>
        requires { length ctx.old.effects ≤ 524288 }
        ensures ok { OnOk result (SendsLast self.old self.new ctx.old ctx.new) }
        ensures adds { Adds 1 ctx.old ctx.new }
    {
        let Some(unframer) = &mut self.unframer else {
            return Ok(());
        };
        match unframer.end() {
            Ok(messages) => send_all(ctx, &messages),
            Err(UnframeFault::Oversize { .. }) => unreachable!(),
            Err(UnframeFault::NoMemory) => Err(NoMemory),
        }
    }
}
