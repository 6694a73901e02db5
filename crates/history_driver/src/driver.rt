ghost use Rattle.std.specs.Prelude.{◌≡◌, ℕ, IfOk};
ghost use Rattle.port_history.specs.Opening.{Opening, taken_of};
ghost use Rattle.port_history.specs.State.{State};
ghost use Rattle.port_model.specs.Tasks.{TaskView};
ghost use Rattle.history_state.specs.Kept.{IsStateOf};
ghost use Rattle.history_driver.specs.Kinds.{kind_of};
ghost use Rattle.history_driver.specs.Handled.{IsDriverOf, Judged, StartsAs};

use crate::comparing::same_effects;
use crate::handling::stops;
use crate::held::HeldEvents;
use crate::running::RunningDriver;
use crate::starting::{begin, context};
use crate::{Config, DriverKind, HistoryState, RowEnd};
use driver_queue::DriverQueue;
use port_model::{Effect, Items, NoMemory, Outside, Sender, Task};
use std::alloc::Global;
use std::mem;

/// A handled task as its row tells it: who sent it, what the outside answered, and the effects.
#[derive(Clone, Copy)]
pub struct HandledTask<'a> {
    pub from: Sender,
    pub task: &'a Task,
    pub outside: &'a [Outside],
    pub effects: &'a [Effect],
}

/// A driver that was started for a history, with its queue, its events and the number of its next job.
#[derive(Drop)]
pub struct HistoryDriver {
    pub(crate) driver: RunningDriver,
    pub(crate) queue: DriverQueue,
    pub(crate) held: HeldEvents,
    pub(crate) next_job: u64,
}

impl HistoryDriver {
    /// Starts a driver of this kind for a port with these options, this owner, and the events of its program, 0 and 0 without one. Answers
    /// it with the effects of its start.
    pub fn start(
        alloc: Global,
        kind: DriverKind,
        config: &Config,
        owner: u32,
        events: (u32, u32),
    ) -> Result<(HistoryDriver, Items<Effect>), NoMemory>
        ensures { IfOk result (λ r. (port : Opening) → StartsAs (kind_of kind) config.now owner events.0 events.1 r.0 r.1 port) }
    {
        let mut ctx = context(alloc, owner, 0, &[], DriverQueue::new(alloc))?;
        let driver = begin(alloc, &mut ctx, kind, config, events)?;
        let next_job = ctx.next_job();
        let (queue, _, effects) = ctx.finish();
        let mut held = HeldEvents::new(alloc);
        held.note(effects.as_slice())?;
        let started = HistoryDriver {
            driver,
            queue,
            held,
            next_job,
        };
        Ok((started, effects))
    }

    /// Makes the calls of a handled task. Answers nothing where its row breaks the law of effects, and else how its port closes. What the
    /// state tells is as before the row. After a broken law, or want of memory, nothing is said of the driver any more.
    pub fn handle(
        &mut self,
        alloc: Global,
        state: &HistoryState,
        handled: HandledTask<'_>,
    ) -> Result<Option<RowEnd>, NoMemory>
        ensures { IfOk result (λ closing. (port : Opening) (s : State) (seq : ℕ) (task : TaskView) → task.signal ≡ handled.entry.task.now.signal
            → IsStateOf state.now port s → IsDriverOf self.old port s.calls
            → Judged port s (taken_of handled.entry.from seq task handled.entry.outside.now handled.entry.effects.now) closing self.new) }
    {
        let caller = state.caller(handled.from);
        let queue = mem::replace(&mut self.queue, DriverQueue::new(alloc));
        let mut ctx = context(alloc, caller, self.next_job, self.held.as_slice(), queue)?;
        if !self.driver.call_signal(alloc, &mut ctx, state, handled)? {
            return Ok(None);
        }
        let reason = state.closing_reason(handled.from, handled.task.signal(), handled.effects);
        self.driver.flush_queued(alloc, &mut ctx, &reason)?;
        let stops = stops(state, &ctx, &reason);
        self.next_job = ctx.next_job();
        let (queue, _, effects) = ctx.finish();
        self.queue = queue;
        self.held.note(effects.as_slice())?;
        if !same_effects(handled.effects, effects.as_slice()) {
            return Ok(None);
        }
        Ok(Some(RowEnd { reason, stops }))
    }
}
