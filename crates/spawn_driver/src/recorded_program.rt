//! The driver of a program of which only the answers are known.
ghost use Rattle.std.specs.Prelude.{◌≡◌, ◌≤◌, [], ℕ, List, length, IfOk, OnOk};
ghost use Rattle.std.specs.List.{concat};
ghost use Rattle.port_model.specs.declared.effect.Effect.{Effect};
ghost use Rattle.driver_model.specs.Calls.{Outputv, ReadyInput, ReadyOutput, Running, Spawn};
ghost use Rattle.port_driver.specs.Driven.{Began, KeepsRoom};
ghost use Rattle.recorded_calls.specs.Told.{DidAsTold};
ghost use Rattle.spawn_driver.specs.Told.{DoesAsTold, Refuses};

use crate::kept::Kept;
use crate::output::{MOST_OFFERED, select};
use crate::starting::begin;
use crate::told::told_fetch;
use port_driver::{Config, DriverCtx, ReplyTo};
use port_model::{Dir, Effect, IoVec, NoMemory, Outside};
use recorded_calls::{Callback, RecordedCall};
use std::alloc::Global;
use std::marker::Model;

/// What `SpawnDriver` is to a history, without a program: each call is told what the program answered in it, and does what `SpawnDriver`
/// does where its program answers so. Of a stream the messages are cut as the row of the call tells them.
#[derive(Drop)]
pub struct RecordedProgram {
    kept: Kept,
}

impl Model for RecordedProgram {
    ghost use Rattle.driver_model.specs.Calls.{Program};

    ghost Value = { Program };

    ghost view = { λ p. p.kept };
}

impl RecordedProgram {
    /// Begins to serve a port as `start` does, with the two events that its program has: that of its output, and that of its input.
    pub fn start(
        alloc: Global,
        ctx: &mut DriverCtx,
        config: &Config,
        events: (u32, u32),
    ) -> Result<RecordedProgram, NoMemory>
        requires queue { ctx.old.queue ≡ [] }
        requires held { ctx.old.held ≡ [] }
        requires jobs { ctx.old.next_job ≡ 0 }
        requires effects { length ctx.old.effects ≤ 524288 }
        ensures room { KeepsRoom ctx.old ctx.new }
        ensures read { IfOk result (λ program. program.read ≡ events.0) }
        ensures write { IfOk result (λ program. program.write ≡ events.1) }
        ensures began { IfOk result (λ program. Began Spawn config.now (Running program) None ctx.old ctx.new) }
    {
        let mut kept = begin(alloc, config)?;
        (kept.read, kept.write) = events;
        select(ctx, kept.read, Dir::Read, true)?;
        Ok(RecordedProgram { kept })
    }

    /// Makes a call whose answers are told. Answers whether they are what the call asks for; where they aren't, nothing is said of what
    /// it did.
    pub fn call(
        &mut self,
        alloc: Global,
        ctx: &mut DriverCtx,
        call: &RecordedCall<'_>,
    ) -> Result<bool, NoMemory>
        requires effects { length ctx.old.effects ≤ 524288 }
        ensures room { OnOk result (KeepsRoom ctx.old ctx.new) }
        ensures told { IfOk result (DidAsTold Spawn call.now (Running self.old) (Running self.new) ctx.old ctx.new) }
    {
        match call.callback {
            Callback::Outputv(payload) => self.outputv(alloc, ctx, payload, call.outside),
            Callback::Control { .. } | Callback::Call { .. } => refuse(ctx, call.outside),
            Callback::ReadyInput(_) => self.ready_input(alloc, ctx, call.outside, call.effects),
            Callback::ReadyOutput(_) => self.ready_output(ctx, call.outside),
            Callback::ReadyAsync { .. } | Callback::ProcessExit(_) | Callback::Flush => {
                Ok(call.outside.is_empty())
            }
        }
    }

    /// Takes the data of a command, for which nothing is asked of the program.
    fn outputv(
        &mut self,
        alloc: Global,
        ctx: &mut DriverCtx,
        payload: &IoVec,
        outside: &[Outside],
    ) -> Result<bool, NoMemory>
        requires effects { length ctx.old.effects ≤ 524288 }
        ensures room { OnOk result (KeepsRoom ctx.old ctx.new) }
        ensures told { IfOk result (λ answered. (row : List Effect) → DoesAsTold (Outputv (concat payload.now)) outside.now row self.old self.new ctx.old ctx.new answered) }
    {
        if !outside.is_empty() {
            return Ok(false);
        }
        self.kept.output(alloc, ctx, payload)?;
        Ok(true)
    }

    /// Drops what the program took of the front of the queue.
    fn ready_output(&mut self, ctx: &mut DriverCtx, outside: &[Outside]) -> Result<bool, NoMemory>
        requires effects { length ctx.old.effects ≤ 524288 }
        ensures room { OnOk result (KeepsRoom ctx.old ctx.new) }
        ensures told { IfOk result (λ answered. (event : ℕ) (row : List Effect) → DoesAsTold (ReadyOutput event) outside.now row self.old self.new ctx.old ctx.new answered) }
    {
        let [answer] = outside else {
            return Ok(false);
        };
        match answer {
            Outside::Took(taken) => {
                if ctx.queue().sizeq().min(MOST_OFFERED) < u64::from(*taken) {
                    return Ok(false);
                }
                self.kept.drop_taken(ctx, *taken)?;
                Ok(true)
            }
            Outside::Failed => {
                self.kept.give_up(ctx)?;
                Ok(true)
            }
            _ => Ok(false),
        }
    }

    /// Takes what the program gave.
    fn ready_input(
        &mut self,
        alloc: Global,
        ctx: &mut DriverCtx,
        outside: &[Outside],
        row: &[Effect],
    ) -> Result<bool, NoMemory>
        requires effects { length ctx.old.effects ≤ 524288 }
        ensures room { OnOk result (KeepsRoom ctx.old ctx.new) }
        ensures told { IfOk result (λ answered. (event : ℕ) → DoesAsTold (ReadyInput event) outside.now row.now self.old self.new ctx.old ctx.new answered) }
    {
        let Some(told) = told_fetch(outside, self.kept.config.exit_status) else {
            return Ok(false);
        };
        self.kept.follow(alloc, ctx, &told, row)?;
        Ok(true)
    }
}

/// Refuses a control or a call, for which nothing is asked of the program.
fn refuse(ctx: &mut DriverCtx, outside: &[Outside]) -> Result<bool, NoMemory>
    requires { length ctx.old.effects ≤ 524288 }
    ensures room { OnOk result (KeepsRoom ctx.old ctx.new) }
    ensures refuses { IfOk result (Refuses outside.now ctx.old ctx.new) }
{
    if !outside.is_empty() {
        return Ok(false);
    }
    ctx.reply(ReplyTo::Badarg)?;
    Ok(true)
}
