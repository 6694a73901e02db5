//! The failures of a port, and what a failed call of its program leaves.
ghost use Rattle.std.specs.Prelude.{◌≡◌, ◌<◌, ◌++◌, ◌∷◌, [], None, true, length, codes, OnOk};
ghost use Rattle.port_signal.specs.Name.{name_fault};
ghost use Rattle.port_signal.specs.declared.outside.Outside.TheVariants.{Failed};
ghost use Rattle.port_model.specs.declared.effect.Effect.TheVariants.{Fail};
ghost use Rattle.spawn_driver.specs.Recorded.{Adds, with_effects};

use crate::kept::Kept;
use port_driver::DriverCtx;
use port_model::{NoMemory, Outside, Reason};

/// Ends the port for the reason that these bytes spell.
pub(crate) fn fail(ctx: &mut DriverCtx, reason: &[u8]) -> Result<(), NoMemory>
    requires name { name_fault reason.now ≡ None }
    requires room { length ctx.old.effects < 1048576 }
    ensures ok { OnOk result (ctx.new ≡ with_effects ctx.old (Fail reason.now ∷ [])) }
    ensures adds { Adds 1 ctx.old ctx.new }
{
    match Reason::of_bytes(reason) {
        Ok(reason) => ctx.fail(reason),
        Err(_) => unreachable!(),
    }
}

impl Kept {
    /// Records that a call of the program failed, and gives up.
    pub(crate) fn note_failure(&mut self, ctx: &mut DriverCtx) -> Result<(), NoMemory>
        requires outside { length ctx.old.outside < 1048575 }
        requires effects { length ctx.old.effects < 1048576 }
        ensures program { self.new ≡ record self.old { failed = true } }
        ensures ok { OnOk result (ctx.new ≡ record (with_effects ctx.old (Fail (codes "eio") ∷ [])) { queue = []; outside = ctx.old.outside ++ Failed ∷ [] }) }
        ensures adds { Adds 2 ctx.old ctx.new }
    {
        self.give_up(ctx)?;
        ctx.answered(Outside::Failed)
    }

    /// Queues nothing any more, once a call of the program has failed: the port fails `eio`.
    pub(crate) fn give_up(&mut self, ctx: &mut DriverCtx) -> Result<(), NoMemory>
        requires { length ctx.old.effects < 1048576 }
        ensures program { self.new ≡ record self.old { failed = true } }
        ensures ok { OnOk result (ctx.new ≡ record (with_effects ctx.old (Fail (codes "eio") ∷ [])) { queue = [] }) }
        ensures adds { Adds 1 ctx.old ctx.new }
    {
        self.failed = true;
        ctx.clear_queue();
        fail(ctx, b"eio")
    }
}
