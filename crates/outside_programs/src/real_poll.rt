ghost use Rattle.std.specs.Prelude.{◌≡◌, [], IfOk};
ghost use Rattle.outside.specs.Sublist.{IsSublist};

use crate::counts::Counts;
use crate::pauses::Pauses;
use outside::{EventLog, FaultCount, NoMemory, PollFault, PollSet};
use std::alloc::{AllocError, Global};
use std::sync::Arc;
use std::thread;
use std::time::{Clock, Duration};
use wake_ups::Waiter;

/// The readiness of the events of real children.
///
/// A read event is ready as long as something is there to fetch, and a write event as long as the input
/// takes a piece: an event stays ready until it is met. Where none is ready, a wait pauses for a
/// millisecond at most, or ten where nothing was ready for long, and looks once more. Once it was
/// told whom to wake, the threads of the children wake that one, and a wait doesn't pause. It
/// never fails.
#[derive(Drop)]
pub struct RealPoll<R> {
    rt: R,
    counts: Counts,
    pauses: Pauses,
    faults: FaultCount,
    answered: EventLog,
}

impl<R: Clock + Drop> RealPoll<R> {
    /// The events 0 to `events` less one, none of which is ready.
    pub fn new(alloc: Global, rt: R, events: u32) -> Result<Self, NoMemory>
        ensures faults { IfOk result (λ poll. ⟦<RealPoll<R> as PollSet>⟧.faults poll ≡ 0) }
        ensures answered { IfOk result (λ poll. ⟦<RealPoll<R> as PollSet>⟧.answered poll ≡ []) }
    {
        let counts = Counts::new(alloc, events)?;
        Ok(RealPoll {
            rt,
            counts,
            pauses: Pauses::new(),
            faults: FaultCount::new(),
            answered: EventLog::new(),
        })
    }

    pub(crate) fn counts(&self) -> Result<Counts, NoMemory> {
        self.counts.share()
    }

    fn ready(&self, alloc: Global, armed: &[u32]) -> Result<Vec<u32>, AllocError>
        ensures { IfOk result (λ events. IsSublist events.items armed.now) }
    {
        let mut events = Vec::new(alloc);
        for event in armed {
            if self.counts.is_ready(*event) {
                events.push(*event)?;
            }
        }
        Ok(events)
    }

    /// The ready events. Where there are none and nobody is woken, those that are ready after a pause.
    fn ready_soon(
        &self,
        alloc: Global,
        armed: &[u32],
        pause: Duration,
    ) -> Result<Vec<u32>, AllocError>
        ensures { IfOk result (λ events. IsSublist events.items armed.now) }
    {
        let events = self.ready(alloc, armed)?;
        if !events.is_empty() || self.counts.has_waiter() {
            return Ok(events);
        }
        thread::sleep(&self.rt, pause);
        self.ready(alloc, armed)
    }
}

impl<R: Clock + Drop> PollSet for RealPoll<R> {
    ghost faults = { λ p. p.faults };

    ghost answered = { λ p. p.answered };

    fn wake_at(&self, waiter: &Arc<Waiter, Global>) {
        self.counts.wake_at(waiter);
    }

    fn wait(&mut self, alloc: Global, armed: &[u32]) -> Result<Vec<u32>, PollFault> {
        let pause = self.pauses.next(armed.len());
        let events = self.ready_soon(alloc, armed, pause)?;
        self.pauses.note(events.is_empty());
        self.answered.note(events.as_slice());
        Ok(events)
    }
}
