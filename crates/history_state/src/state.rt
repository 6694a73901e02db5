ghost use Rattle.std.specs.Prelude.{◌≡◌, ◌∷◌, [], ℕ, List, true, IfOk};
ghost use Rattle.driver_model.specs.Drivers.{effects_of};
ghost use Rattle.port_history.specs.Opening.{Opening, is_process, taken_of};
ghost use Rattle.port_history.specs.Service.{caller_of, first_reason};
ghost use Rattle.port_history.specs.State.{State, closing_reason, start_call, state_at_start, is_open};
ghost use Rattle.port_history.specs.Ties.{failure};
ghost use Rattle.port_model.specs.Tasks.{TaskView};
ghost use Rattle.port_signal.specs.declared.outside.Outside.{Outside as OutsideView};
ghost use Rattle.history_tables.specs.JobsKept.{are_next};
ghost use Rattle.history_state.specs.Kept.{IsStateOf, is_told};

use crate::{
    Effect, EventTable, JobTable, ListedTasks, NoMemory, PortMarks, PortTies, Reason, Sender,
    SenderCounts, Signal, WatchedProcesses,
};
use std::alloc::Global;

/// What a port is after some rows of its history, but for its driver.
#[derive(Drop)]
pub struct HistoryState {
    pub(crate) processes: u32,
    pub(crate) ties: PortTies,
    pub(crate) watched: WatchedProcesses,
    pub(crate) reason: Option<Reason>,
    pub(crate) stopped: bool,
    pub(crate) events: EventTable,
    pub(crate) jobs: JobTable,
    pub(crate) counts: SenderCounts,
    pub(crate) listed: ListedTasks,
    pub(crate) marks: PortMarks,
}

/// The reason of the first failure among these effects.
pub(crate) fn failure(effects: &[Effect]) -> Option<Reason>
    ensures { result ≡ failure effects.now }
{
    for effect in effects {
        if let Effect::Fail(reason) = effect {
            return Some(reason.same());
        }
    }
    None
}

/// The first of two reasons that is there.
pub(crate) fn first_reason(reason: Option<Reason>, other: Option<Reason>) -> Option<Reason>
    ensures { result ≡ first_reason reason other }
{
    match reason {
        Some(reason) => Some(reason),
        None => other,
    }
}

impl HistoryState {
    /// The state of a port that was just opened among so many processes, where its driver had these effects as it started. Its jobs are
    /// the first ones.
    pub fn new(
        alloc: Global,
        processes: u32,
        owner: u32,
        effects: &[Effect],
    ) -> Result<HistoryState, NoMemory>
        requires { are_next 0 effects.now ≡ true }
        ensures { IfOk result (λ state. (port : Opening) → port.processes ≡ processes → port.owner ≡ owner
            → effects.now ≡ effects_of port.kind port.config (start_call port ∷ []) → IsStateOf state port (state_at_start port)) }
    {
        let mut watched = WatchedProcesses::new(alloc);
        watched.note(effects)?;
        let mut events = EventTable::new(alloc);
        events.note_start(effects)?;
        let mut jobs = JobTable::new(alloc);
        jobs.submit(effects)?;
        let ties = PortTies::new(alloc, owner)?;
        let counts = SenderCounts::new(alloc);
        let listed = ListedTasks::new(alloc);
        let marks = PortMarks::new();
        Ok(HistoryState {
            processes,
            ties,
            watched,
            reason: None,
            stopped: false,
            events,
            jobs,
            counts,
            listed,
            marks,
        })
    }

    /// Whether no row has closed the port.
    pub fn is_open(&self) -> bool
        ensures { (port : Opening) (s : State) → IsStateOf self.now port s → result ≡ is_open s }
    {
        self.reason.is_none()
    }

    /// Whether the driver was stopped.
    pub fn is_stopped(&self) -> bool
        ensures { (port : Opening) (s : State) → IsStateOf self.now port s → result ≡ s.stopped }
    {
        self.stopped
    }

    /// The process whose signal is handled, and else the owner.
    pub fn caller(&self, from: Sender) -> u32
        ensures { (port : Opening) (s : State) → IsStateOf self.now port s → result ≡ caller_of s.ties from }
    {
        self.ties.caller(from)
    }

    /// Whether the owner sent it.
    pub fn is_owner(&self, from: Sender) -> bool
        ensures { (port : Opening) (s : State) → IsStateOf self.now port s → result ≡ is_process s.ties.owner from }
    {
        self.ties.is_owner(from)
    }

    /// Whether the driver is told of the sender's end.
    pub fn is_told_of(&self, from: Sender) -> bool
        ensures { (port : Opening) (s : State) → IsStateOf self.now port s → result ≡ is_told s.watched from }
    {
        match from {
            Sender::Process(process) => self.watched.has(process),
            Sender::Poller | Sender::Worker(_) | Sender::Timer => false,
        }
    }

    /// Why the port closed, once it has.
    pub fn reason(&self) -> Option<Reason>
        ensures { (port : Opening) (s : State) → IsStateOf self.now port s → result ≡ s.reason }
    {
        match &self.reason {
            Some(reason) => Some(reason.same()),
            None => None,
        }
    }

    /// The reason for which a handled task with these effects closes the port, if it does.
    pub fn closing_reason(
        &self,
        from: Sender,
        signal: &Signal,
        effects: &[Effect],
    ) -> Option<Reason>
        ensures { (port : Opening) (s : State) (seq : ℕ) (task : TaskView) (outside : List OutsideView) → task.signal ≡ signal.now → IsStateOf self.now port s
            → result ≡ closing_reason s (taken_of from seq task outside effects.now) }
    {
        if self.reason.is_some() {
            return None;
        }
        first_reason(failure(effects), self.ties.reason_to_close(from, signal))
    }
}
