//! What a row makes of the state.
ghost use Rattle.std.specs.Prelude.{◌≡◌, ℕ, List, true, OnOk, if◌then◌else◌};
ghost use Rattle.port_history.specs.Jobs.{Submitted, done_by};
ghost use Rattle.port_history.specs.Laws.{keeps_resumed, keeps_listed};
ghost use Rattle.port_history.specs.Marks.{is_due};
ghost use Rattle.port_history.specs.Opening.{Opening, Taken};
ghost use Rattle.port_history.specs.State.{State, after, after_handled, after_late};
ghost use Rattle.port_history.specs.Ties.{Ties, tied, untied};
ghost use Rattle.history_tables.specs.JobsKept.{Keeps};
ghost use Rattle.history_tables.specs.Tied.{Tied};
ghost use Rattle.history_state.specs.Kept.{IsStateOf, IsHandledSo, is_next_job};

use crate::state::first_reason;
use crate::{
    Effect, HistoryState, JobTable, MarkKind, NoMemory, PortTies, Reason, Row, Sender, Signal,
};

/// How a handled task left its port: for which reason it closed the port, if it did, and whether the driver was stopped in its row.
#[derive(Drop)]
pub struct RowEnd {
    pub reason: Option<Reason>,
    pub stops: bool,
}

/// Takes in the job that a signal tells done, if it does.
fn note_done(jobs: &mut JobTable, signal: &Signal) -> Result<(), NoMemory>
    ensures { OnOk result ((before : List Submitted) (done : List ℕ) → Keeps jobs.old before done → is_next_job before done signal.now ≡ true → Keeps jobs.new before (done_by signal.now done)) }
{
    match signal {
        Signal::AsyncDone { number, .. } => jobs.note_done(*number),
        _ => Ok(()),
    }
}

/// Takes in what a handled signal does to the ties of a port, whose row closes it or doesn't.
fn note_ties(
    ties: &mut PortTies,
    from: Sender,
    signal: &Signal,
    processes: u32,
    closes: bool,
) -> Result<(), NoMemory>
    ensures { OnOk result ((port : Opening) (before : Ties) → port.processes ≡ processes → Tied ties.old before
        → Tied ties.new (if closes then untied (tied port before from signal.now) else tied port before from signal.now)) }
{
    ties.note_handled(from, signal, processes)?;
    if !closes {
        return Ok(());
    }
    ties.close();
    Ok(())
}

impl HistoryState {
    /// Takes in a task that the port handled, with its effects. The jobs that these submit are the next ones, and a job that is told done is
    /// the next of its key.
    pub fn note_handled(
        &mut self,
        from: Sender,
        signal: &Signal,
        effects: &[Effect],
        closing: RowEnd,
    ) -> Result<(), NoMemory>
        ensures { OnOk result ((port : Opening) (s : State) (t : Taken) → IsHandledSo from signal.now effects.now closing.reason closing.stops port s t → IsStateOf self.old port s
            → IsStateOf self.new port (after_handled port s t)) }
    {
        let RowEnd { reason, stops } = closing;
        let closes = reason.is_some();
        note_ties(&mut self.ties, from, signal, self.processes, closes)?;
        self.watched.note(effects)?;
        self.reason = first_reason(self.reason.take(), reason);
        self.stopped |= stops;
        let closed = self.reason.is_some();
        self.events.note_handled(signal, effects, closed, stops)?;
        note_done(&mut self.jobs, signal)?;
        self.jobs.submit(effects)?;
        self.counts.note(from)?;
        self.marks.note(effects, closes);
        Ok(())
    }

    /// Takes in a task that came late.
    pub fn note_late(&mut self, from: Sender, signal: &Signal) -> Result<(), NoMemory>
        ensures { OnOk result ((port : Opening) (s : State) (t : Taken) → t.from ≡ from → t.task.signal ≡ signal.now → is_next_job s.jobs s.done signal.now ≡ true
            → IsStateOf self.old port s → IsStateOf self.new port (after_late s t)) }
    {
        self.ties.note_late(from, signal)?;
        self.events.note_late(signal)?;
        note_done(&mut self.jobs, signal)?;
        self.counts.note(from)?;
        Ok(())
    }

    /// Takes in the Listed row of a task that may be listed.
    pub fn note_listed(&mut self, from: Sender, seq: u64) -> Result<(), NoMemory>
        ensures { OnOk result ((port : Opening) (s : State) → keeps_listed s (Row.Listed from seq) ≡ true → IsStateOf self.old port s
            → IsStateOf self.new port (after port s (Row.Listed from seq))) }
    {
        self.listed.list(from, seq)
    }

    /// Takes in the Resumed row of the first task that waits for it.
    pub fn note_resumed(&mut self, from: Sender, seq: u64, word: u64)
        ensures { (port : Opening) (s : State) → keeps_resumed s (Row.Resumed from seq word) ≡ true → IsStateOf self.old port s
            → IsStateOf self.new port (after port s (Row.Resumed from seq word)) }
    {
        self.listed.resume(from, seq);
    }

    /// Takes in the mark that is due.
    pub fn note_mark(&mut self, kind: MarkKind)
        ensures { (port : Opening) (s : State) → is_due kind s.due ≡ true → IsStateOf self.old port s → IsStateOf self.new port (after port s (Row.Mark kind)) }
    {
        self.marks.put(kind);
    }
}
