//! Senders that are suspended and resumed.
ghost use Rattle.std.specs.Prelude.{◌≡◌, ◌<◌, ◌≤◌, ◌∷◌, ◌++◌, [], length, Contains, OnOk, IfOk, true, not, is_some};
ghost use Rattle.port_model.specs.declared.row.Row.TheVariants.{Listed, Resumed};
ghost use Rattle.port_model.specs.declared.signal.Sender.TheVariants.{Process};
ghost use Rattle.port_lanes.specs.port_history.Mail.{row_mail};
ghost use Rattle.port_lanes.specs.port_history.State.{State, is_open};
ghost use Rattle.port_mail.specs.Ends.{Posts};
ghost use Rattle.recorded_port.specs.View.{IsSettled, state_of};
ghost use Rattle.recorded_port.specs.Taking.{IsSameRecorded, UsesRoom};
ghost use Rattle.recorded_port.specs.Resuming.{MayList, Resumes, ResumesAll, ResumesNext, may_go};

use crate::{Driver, NoMemory, RecordedPort, Row, Sender};
use port_mail::Resumption;
use port_suspension::may_resume;
use std::sync::Wait;
use suspend_list::Entry;

impl<D: Driver> RecordedPort<D> {
    /// Lists the task of this process, with its place in the process's order, as one that suspends it. It is refused where a task of the process is listed
    /// already: a process that is suspended sends none that suspends it.
    pub fn list(&mut self, process: u32, seq: u64) -> Result<(), NoMemory>
        requires settled { IsSettled self.old }
        requires may { MayList self.old process seq }
        requires room { 0 < self.old.room }
        ensures same { IsSameRecorded self.old self.new }
        ensures room { UsesRoom self.old self.new }
        ensures settled { OnOk result (IsSettled self.new) }
        ensures rows { OnOk result (self.new.rows ≡ self.old.rows ++ Listed (Process process) seq ∷ []) }
    {
        if !self.suspension.list(process, seq) {
            return Err(NoMemory);
        }
        self.write(Row::Listed {
            from: Sender::Process(process),
            seq,
        });
        Ok(())
    }

    /// Resumes all senders that wait, in their order, where the port isn't open, or where it isn't busy and one load of MSGQ finds that its message queue
    /// isn't either. Where nobody waits nothing is loaded.
    #[inline(always)]
    pub fn resume<R: Wait>(&mut self, rt: &R) -> Result<(), NoMemory>
        requires settled { IsSettled self.old }
        requires room { length (state_of self.old).listed ≤ self.old.room }
        ensures same { IsSameRecorded self.old self.new }
        ensures room { UsesRoom self.old self.new }
        ensures settled { OnOk result (IsSettled self.new) }
        ensures resumes { OnOk result (Resumes self.old self.new) }
    {
        if self.suspension.is_empty() {
            return Ok(());
        }
        let word = self.seat.look_msgq();
        if !may_resume(word, self.is_open(), self.is_busy()) {
            return Ok(());
        }
        self.resume_all(rt, word)
    }

    /// Resumes all senders that wait with this word.
    fn resume_all<R: Wait>(&mut self, rt: &R, word: u64) -> Result<(), NoMemory>
        requires settled { IsSettled self.old }
        requires found { Contains self.old.seat.known.words word }
        requires may { may_go (state_of self.old) word ≡ true }
        requires room { length (state_of self.old).listed ≤ self.old.room }
        ensures same { IsSameRecorded self.old self.new }
        ensures room { UsesRoom self.old self.new }
        ensures settled { OnOk result (IsSettled self.new) }
        ensures all { OnOk result (ResumesAll self.old self.new word) }
    {
        for _ in rt.forever() {
            if !self.resume_next(rt, word)? {
                return Ok(());
            }
        }
        unreachable!()
    }

    /// Resumes the first of those who wait with this word. False exactly where nobody waits.
    fn resume_next<R: Wait>(&mut self, rt: &R, word: u64) -> Result<bool, NoMemory>
        requires settled { IsSettled self.old }
        requires found { Contains self.old.seat.known.words word }
        requires may { may_go (state_of self.old) word ≡ true }
        requires room { length (state_of self.old).listed ≤ self.old.room }
        ensures same { IsSameRecorded self.old self.new }
        ensures room { UsesRoom self.old self.new }
        ensures settled { OnOk result (IsSettled self.new) }
        ensures next { IfOk result (λ went. ResumesNext went self.old self.new word) }
    {
        let Some(entry) = self.suspension.resume_first() else {
            return Ok(false);
        };
        self.write_resumed(rt, entry, word)?;
        Ok(true)
    }

    /// Puts the mail of a resumed sender and writes its row.
    fn write_resumed<R: Wait>(&mut self, rt: &R, entry: Entry, word: u64) -> Result<(), NoMemory>
        requires { 0 < self.old.room }
        ensures same { IsSameRecorded self.old self.new }
        ensures room { UsesRoom self.old self.new }
        ensures rows { self.new ≡ record self.old { rows = self.old.rows ++ Resumed (Process entry.process) entry.seq word ∷ []; room = self.new.room; ends = self.new.ends } }
        ensures mail { OnOk result ((s : State) → (is_open s ≡ not (is_some self.old.port.state.reason))
            → Posts self.old.port.state.links.ties.ended self.old.ends self.new.ends (row_mail self.old.opening s (Resumed (Process entry.process) entry.seq word))) }
    {
        let resumption = Resumption {
            port: self.fixed.number,
            process: entry.process,
            seq: entry.seq,
            word,
            closed: !self.port.is_open(),
        };
        let posted = self
            .mailboxes
            .post_resume(rt, self.port.links(), resumption);
        self.write(Row::Resumed {
            from: Sender::Process(entry.process),
            seq: entry.seq,
            word,
        });
        posted
    }
}
