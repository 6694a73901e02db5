//! The end of a program's output.
ghost use Rattle.std.specs.Prelude.{◌≡◌, ◌≤◌, ◌<◌, ◌||◌, ◌∷◌, [], true, length, codes, if◌then◌else◌, IfOk, OnOk};
ghost use Rattle.port_signal.specs.declared.outside.Outside.TheVariants as answers;
ghost use Rattle.port_model.specs.declared.effect.Effect.TheVariants.{Eof, Fail};
ghost use Rattle.driver_model.specs.Spawn.{has_failed};
ghost use Rattle.spawn_driver.specs.Recorded.{Adds, with_effects, with_answers};
ghost use Rattle.spawn_driver.specs.Steps.{Ends, TellsStatus, answers_to};

use crate::failures::fail;
use crate::kept::Kept;
use crate::output::select;
use outside::StatusGot;
use port_driver::DriverCtx;
use port_model::{Dir, NoMemory, Outside};

/// Tells the end of the output, where the port has the option for it.
fn tell_eof(ctx: &mut DriverCtx, eof: bool) -> Result<(), NoMemory>
    requires { length ctx.old.effects < 1048576 }
    ensures ok { OnOk result (ctx.new ≡ with_effects ctx.old (if eof then Eof ∷ [] else [])) }
    ensures adds { Adds 1 ctx.old ctx.new }
{
    if eof {
        return ctx.send_eof();
    }
    Ok(())
}

/// Ends the port, unless the option for the end keeps it or the call for the status failed.
fn end_port(ctx: &mut DriverCtx, eof: bool, has_failed: bool) -> Result<(), NoMemory>
    requires { length ctx.old.effects < 1048576 }
    ensures ok { OnOk result (ctx.new ≡ with_effects ctx.old (if eof || has_failed then [] else Fail (codes "normal") ∷ [])) }
    ensures adds { Adds 1 ctx.old ctx.new }
{
    if eof || has_failed {
        return Ok(());
    }
    fail(ctx, b"normal")
}

impl Kept {
    /// Records the end of the output and what the program answered where it was asked for its status, and tells them.
    pub(crate) fn end(
        &mut self,
        ctx: &mut DriverCtx,
        status: Option<StatusGot>,
    ) -> Result<(), NoMemory>
        requires outside { length ctx.old.outside ≤ 524288 }
        requires effects { length ctx.old.effects ≤ 524288 }
        ensures ok { OnOk result (Ends (answers_to status) self.old self.new ctx.old ctx.new) }
        ensures adds { Adds 7 ctx.old ctx.new }
    {
        self.tell_end(ctx, status)?;
        ctx.answered(Outside::End)?;
        match status {
            None => Ok(()),
            Some(StatusGot::Ended(status)) => ctx.answered(Outside::Status(status)),
            Some(StatusGot::Failed) => ctx.answered(Outside::Failed),
        }
    }

    /// Tells the end of the output and what the options ask for, and ends the port unless the option for the end keeps it. The status is
    /// what the program answered, where it was asked for it.
    pub(crate) fn tell_end(
        &mut self,
        ctx: &mut DriverCtx,
        status: Option<StatusGot>,
    ) -> Result<(), NoMemory>
        requires { length ctx.old.effects ≤ 524288 }
        ensures ok { OnOk result (Ends (answers_to status) self.old self.new ctx.old (with_answers ctx.new (answers.End ∷ answers_to status))) }
        ensures adds { Adds 5 ctx.old ctx.new }
    {
        let eof = self.config.eof;
        let read = self.read;
        self.send_last(ctx)?;
        tell_eof(ctx, eof)?;
        let has_failed = self.tell_status(ctx, status)?;
        select(ctx, read, Dir::Read, false)?;
        end_port(ctx, eof, has_failed)?;
        Ok(())
    }

    /// Sends the status. Answers whether the call for it failed.
    fn tell_status(
        &mut self,
        ctx: &mut DriverCtx,
        status: Option<StatusGot>,
    ) -> Result<bool, NoMemory>
        requires { length ctx.old.effects ≤ 524290 }
        ensures ok { OnOk result (TellsStatus (answers_to status) self.old self.new ctx.old ctx.new) }
        ensures failed { IfOk result (λ failed. failed ≡ has_failed (answers_to status)) }
        ensures adds { Adds 1 ctx.old ctx.new }
    {
        match status {
            None => Ok(false),
            Some(StatusGot::Ended(status)) => {
                ctx.send_status(status)?;
                Ok(false)
            }
            Some(StatusGot::Failed) => {
                self.give_up(ctx)?;
                Ok(true)
            }
        }
    }
}
