//! What is read of a program's output.
ghost use Rattle.std.specs.Prelude.{◌≡◌, ◌≤◌, ◌+◌, ◌∷◌, [], length, OnOk};
ghost use Rattle.packet_framing.specs.Messages.{IsServed};
ghost use Rattle.port_signal.specs.declared.outside.Outside.TheVariants.{Got};
ghost use Rattle.spawn_driver.specs.Recorded.{Adds, with_answers};
ghost use Rattle.spawn_driver.specs.Steps.{Receives};

use crate::kept::Kept;
use crate::unframing::report;
use port_driver::DriverCtx;
use port_model::{NoMemory, Outside, Piece};

impl Kept {
    /// Records the bytes that the program gave, and sends the messages that they make whole.
    pub(crate) fn receive(&mut self, ctx: &mut DriverCtx, bytes: Piece) -> Result<(), NoMemory>
        requires outside { length ctx.old.outside ≤ 524288 }
        requires effects { length ctx.old.effects ≤ 524288 }
        ensures served { IsServed self.old.config.mode }
        ensures ok { OnOk result (Receives bytes self.old self.new ctx.old ctx.new) }
        ensures adds { Adds 131001 ctx.old ctx.new }
    {
        self.take(ctx, &bytes)?;
        ctx.answered(Outside::Got(bytes))
    }

    /// Sends the messages that these bytes make whole.
    pub(crate) fn take(&mut self, ctx: &mut DriverCtx, bytes: &Piece) -> Result<(), NoMemory>
        requires { length ctx.old.effects ≤ 524288 }
        ensures served { IsServed self.old.config.mode }
        ensures ok { OnOk result (Receives bytes.now self.old self.new ctx.old (with_answers ctx.new (Got bytes.now ∷ []))) }
        ensures adds { Adds 131000 ctx.old ctx.new }
    {
        self.count(bytes.len())?;
        let found = self.find(bytes)?;
        report(ctx, &found)
    }

    /// Counts so many more bytes that were taken from the program.
    pub(crate) fn count(&mut self, size: usize) -> Result<(), NoMemory>
        ensures served { IsServed self.old.config.mode }
        ensures ok { OnOk result (self.new ≡ record self.old { taken = self.old.taken + size }) }
    {
        let Some(taken) = self.taken.checked_add(size as u64) else {
            return Err(NoMemory);
        };
        self.taken = taken;
        Ok(())
    }
}
