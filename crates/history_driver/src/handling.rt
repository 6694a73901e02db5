//! The calls of a handled task.
ghost use Rattle.std.specs.Prelude.{◌≡◌, ◌≤◌, ◌&&◌, ℕ, List, [], None, not, length, IfOk, OnOk};
ghost use Rattle.driver_model.specs.Calls.{is_empty, DriverCall};
ghost use Rattle.port_driver.specs.Driven.{Stands};
ghost use Rattle.port_history.specs.Opening.{Opening, taken_of};
ghost use Rattle.port_history.specs.Service.{caller_of, callback_of, exit_callback, first_reason};
ghost use Rattle.port_history.specs.State.{State};
ghost use Rattle.port_model.specs.Tasks.{TaskView};
ghost use Rattle.history_state.specs.Kept.{IsStateOf};
ghost use Rattle.history_driver.specs.Running.{kind_in, own_in};
ghost use Rattle.history_driver.specs.Calling.{CalledAs, Flushed, HasRoom, is_flushed, is_stopped_for, told_callback};

use crate::running::RunningDriver;
use crate::{HandledTask, HistoryState};
use port_driver::DriverCtx;
use port_model::{Dir, NoMemory, Reason, Sender, Signal};
use recorded_calls::{Callback, RecordedCall};
use std::alloc::Global;

/// The callback of the sender's end, where the driver is told of it.
fn exit_callback(state: &HistoryState, from: Sender) -> Option<Callback<'static>>
    ensures { (port : Opening) (s : State) → IsStateOf state.now port s → told_callback result ≡ exit_callback s.watched from }
{
    match from {
        Sender::Process(process) => {
            if state.is_told_of(from) {
                Some(Callback::ProcessExit(process))
            } else {
                None
            }
        }
        Sender::Poller | Sender::Worker(_) | Sender::Timer => None,
    }
}

/// The callback of a signal, if it has one.
fn callback_of<'a>(state: &HistoryState, from: Sender, signal: &'a Signal) -> Option<Callback<'a>>
    ensures { (port : Opening) (s : State) → IsStateOf state.now port s → told_callback result ≡ callback_of s.ties s.watched from signal.now }
{
    match signal {
        Signal::Command(payload) => Some(Callback::Outputv(payload)),
        Signal::OwnerCommand(payload) => {
            if state.is_owner(from) {
                Some(Callback::Outputv(payload))
            } else {
                None
            }
        }
        Signal::Control { op, bytes } => Some(Callback::Control { op: *op, bytes }),
        Signal::Call { op, bytes } => Some(Callback::Call { op: *op, bytes }),
        Signal::Ready { event, dir } => match dir {
            Dir::Read => Some(Callback::ReadyInput(*event)),
            Dir::Write => Some(Callback::ReadyOutput(*event)),
        },
        Signal::AsyncDone { number, output } => Some(Callback::ReadyAsync {
            number: *number,
            output,
        }),
        Signal::Gone(_) => exit_callback(state, from),
        Signal::Close => None,
        Signal::OwnerClose => None,
        Signal::Connect(_) => None,
        Signal::OwnerConnect(_) => None,
        Signal::Link => None,
        Signal::Unlink => None,
        Signal::Monitor(_) => None,
        Signal::Demonitor(_) => None,
        Signal::Exit(_) => None,
        Signal::Dropped(_) => None,
    }
}

/// Whether the driver is flushed where its port closes for a reason, if it does.
fn is_flushed(ctx: &DriverCtx, reason: &Option<Reason>) -> bool
    ensures { result ≡ is_flushed reason.now (is_empty ctx.now.queue) }
{
    match reason {
        Some(reason) => !reason.is_kill() && !ctx.is_drained(),
        None => false,
    }
}

/// Whether the driver of a port that has closed for a reason, if it has, is stopped.
fn is_stopped_for(ctx: &DriverCtx, reason: &Option<Reason>) -> bool
    ensures { result ≡ is_stopped_for reason.now (is_empty ctx.now.queue) }
{
    match reason {
        Some(reason) => reason.is_kill() || ctx.is_drained(),
        None => false,
    }
}

/// Whether the driver is stopped in a row that closes its port for this reason, if it does.
pub(crate) fn stops(state: &HistoryState, ctx: &DriverCtx, reason: &Option<Reason>) -> bool
    ensures { (port : Opening) (s : State) → IsStateOf state.now port s → result ≡ (not s.stopped && is_stopped_for (first_reason s.reason reason.now) (is_empty ctx.now.queue)) }
{
    if state.is_stopped() {
        return false;
    }
    let first = state.reason();
    if first.is_some() {
        return is_stopped_for(ctx, &first);
    }
    is_stopped_for(ctx, reason)
}

impl RunningDriver {
    /// Makes the call of the task's signal, if it has one. Answers whether the outside's answers are what it asks for.
    pub(crate) fn call_signal(
        &mut self,
        alloc: Global,
        ctx: &mut DriverCtx,
        state: &HistoryState,
        handled: HandledTask<'_>,
    ) -> Result<bool, NoMemory>
        requires outside { ctx.old.outside ≡ [] }
        requires effects { ctx.old.effects ≡ [] }
        ensures kind { kind_in self.new ≡ kind_in self.old }
        ensures room { OnOk result (HasRoom ctx.old ctx.new) }
        ensures called { IfOk result (λ answered. (port : Opening) (s : State) (seq : ℕ) (task : TaskView) → task.signal ≡ handled.entry.task.now.signal
            → IsStateOf state.now port s → kind_in self.old ≡ port.kind → ctx.old.caller ≡ caller_of s.ties handled.entry.from
            → Stands port.kind port.config s.calls (own_in self.old) None ctx.old
            → CalledAs port s (taken_of handled.entry.from seq task handled.entry.outside.now handled.entry.effects.now) (own_in self.new) ctx.new answered) }
    {
        match callback_of(state, handled.from, handled.task.signal()) {
            Some(callback) => {
                let call = RecordedCall {
                    callback,
                    outside: handled.outside,
                    effects: handled.effects,
                };
                self.call(alloc, ctx, &call)
            }
            None => Ok(handled.outside.is_empty()),
        }
    }

    /// Flushes the driver, where its port closes for a reason and bytes are queued, unless the port is killed. It asks the outside nothing.
    pub(crate) fn flush_queued(
        &mut self,
        alloc: Global,
        ctx: &mut DriverCtx,
        reason: &Option<Reason>,
    ) -> Result<(), NoMemory>
        requires outside { length ctx.old.outside ≤ 524288 }
        requires effects { length ctx.old.effects ≤ 524288 }
        ensures kind { kind_in self.new ≡ kind_in self.old }
        ensures flushed { OnOk result ((port : Opening) (calls : List DriverCall) → kind_in self.old ≡ port.kind
            → Stands port.kind port.config calls (own_in self.old) None ctx.old → Flushed port reason.now calls (own_in self.new) ctx.old ctx.new) }
    {
        if !is_flushed(ctx, reason) {
            return Ok(());
        }
        let flush = RecordedCall {
            callback: Callback::Flush,
            outside: &[],
            effects: &[],
        };
        let _ = self.call(alloc, ctx, &flush)?;
        Ok(())
    }
}
