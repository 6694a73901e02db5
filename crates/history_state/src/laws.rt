//! Whether a row keeps the laws, each alone, after the rows before it.
ghost use Rattle.std.specs.Prelude.{◌≡◌, ◌&&◌, ℕ, List, not, IfOk};
ghost use Rattle.port_history.specs.Opening.{Opening};
ghost use Rattle.port_history.specs.State.{State};
ghost use Rattle.port_history.specs.Laws.{is_next, keeps_order, keeps_lifetime, waits_where_busy, keeps_busy, keeps_marks, is_listed_right, keeps_listed, keeps_resumed, is_served, keeps_ready, is_told_in_time, is_told_right, keeps_jobs, keeps_end};
ghost use Rattle.port_history.specs.Marks.{is_busy, none_due};
ghost use Rattle.port_history.specs.Suspension.{is_queue_busy};
ghost use Rattle.port_model.specs.Tasks.{TaskView};
ghost use Rattle.port_model.specs.declared.effect.Effect.{Effect as EffectView};
ghost use Rattle.port_signal.specs.declared.outside.Outside.{Outside as OutsideView};
ghost use Rattle.history_state.specs.Kept.{IsStateOf};

use crate::senders::may_send;
use crate::{HistoryState, NoMemory, Row, Sender, Signal, Task};
use port_model::Piece;
use std::alloc::Global;

/// Whether a task waits while the port is busy.
fn waits_where_busy(task: &Task) -> bool
    ensures { result ≡ waits_where_busy task.now }
{
    task.signal().is_command() && !task.is_forced()
}

/// Whether the message queue is busy by its word MSGQ, whose bits from 40 on are its period: an odd one is busy.
fn is_queue_busy(word: u64) -> bool
    ensures { result ≡ is_queue_busy word }
{
    word / (1 << 40) % 2 == 1
}

impl HistoryState {
    /// Whether it is the next task of its sender, who may send this signal.
    fn is_next(&self, from: Sender, seq: u64, signal: &Signal) -> bool
        ensures { (port : Opening) (s : State) → IsStateOf self.now port s → result ≡ is_next s from seq signal.now }
    {
        seq == self.counts.count(from) && may_send(from, signal)
    }

    /// The same of a task.
    fn is_next_task(&self, from: Sender, seq: u64, task: &Task) -> bool
        ensures { (port : Opening) (s : State) → IsStateOf self.now port s → result ≡ is_next s from seq task.now.signal }
    {
        self.is_next(from, seq, task.signal())
    }

    /// Law 1, order: the numbers of a sender's tasks are 0, 1, 2 and so on, and each signal comes from a sender that may send it.
    pub fn keeps_order(&self, row: &Row) -> bool
        ensures { (port : Opening) (s : State) → IsStateOf self.now port s → result ≡ keeps_order s row.now }
    {
        match row {
            Row::Handled {
                from,
                seq,
                task,
                ..
            } => self.is_next_task(*from, *seq, task),
            Row::Late { from, seq, task } => self.is_next_task(*from, *seq, task),
            _ => true,
        }
    }

    /// Whether a task of the sender may be handled: one of a process only while the port is open.
    fn is_handled_in_time(&self, from: Sender) -> bool
        ensures { (port : Opening) (s : State) (seq : ℕ) (task : TaskView) (outside : List OutsideView) (effects : List EffectView) → IsStateOf self.now port s
            → result ≡ keeps_lifetime s (Row.Handled from seq task outside effects) }
    {
        match from {
            Sender::Process(_) => self.is_open(),
            Sender::Poller | Sender::Worker(_) | Sender::Timer => true,
        }
    }

    /// Whether a task of the sender may be late: one of a process only while the port isn't open.
    fn is_late_in_time(&self, from: Sender) -> bool
        ensures { (port : Opening) (s : State) (seq : ℕ) (task : TaskView) → IsStateOf self.now port s → result ≡ keeps_lifetime s (Row.Late from seq task) }
    {
        match from {
            Sender::Process(_) => !self.is_open(),
            Sender::Poller | Sender::Worker(_) | Sender::Timer => true,
        }
    }

    /// Law 2, lifetime: a process's signal is handled only while the port is open, and late only while it isn't.
    pub fn keeps_lifetime(&self, row: &Row) -> bool
        ensures { (port : Opening) (s : State) → IsStateOf self.now port s → result ≡ keeps_lifetime s row.now }
    {
        match row {
            Row::Handled { from, .. } => self.is_handled_in_time(*from),
            Row::Late { from, .. } => self.is_late_in_time(*from),
            _ => true,
        }
    }

    /// Whether the port is busy by its marks.
    fn is_busy(&self) -> bool
        ensures { (port : Opening) (s : State) → IsStateOf self.now port s → result ≡ is_busy s.marks }
    {
        self.marks.is_busy()
    }

    /// Whether the port may handle the task, as far as it is busy.
    fn may_handle(&self, task: &Task) -> bool
        ensures { (port : Opening) (s : State) → IsStateOf self.now port s → result ≡ not (waits_where_busy task.now && is_busy s.marks) }
    {
        let waits = waits_where_busy(task);
        let busy = self.is_busy();
        if !busy {
            return true;
        }
        !waits
    }

    /// Law 3, busy: a command that isn't forced is handled only where the port isn't busy.
    pub fn keeps_busy(&self, row: &Row) -> bool
        ensures { (port : Opening) (s : State) → IsStateOf self.now port s → result ≡ keeps_busy s row.now }
    {
        match row {
            Row::Handled { task, .. } => self.may_handle(task),
            _ => true,
        }
    }

    /// Law 5, marks: behind a row that changed the busy state stands its mark, then behind the closing row the closed mark, and marks stand
    /// nowhere else.
    pub fn keeps_marks(&self, row: &Row) -> bool
        ensures { (port : Opening) (s : State) → IsStateOf self.now port s → result ≡ keeps_marks s row.now }
    {
        match row {
            Row::Mark(kind) => self.marks.is_due(*kind),
            _ => self.marks.are_settled(),
        }
    }

    /// Whether a task has a Listed row exactly where it suspends.
    fn is_listed_right(&self, from: Sender, seq: u64, task: &Task) -> bool
        ensures { (port : Opening) (s : State) → IsStateOf self.now port s → result ≡ is_listed_right s from seq task.now }
    {
        if task.suspends() {
            self.listed.has(from, seq)
        } else {
            !self.listed.has(from, seq)
        }
    }

    /// Whether a task may be listed: it wasn't, it has no row yet, and its sender isn't suspended.
    fn may_list(&self, from: Sender, seq: u64) -> bool
        ensures { (port : Opening) (s : State) → IsStateOf self.now port s → result ≡ keeps_listed s (Row.Listed from seq) }
    {
        if self.listed.has(from, seq) {
            return false;
        }
        let count = self.counts.count(from);
        if seq < count {
            return false;
        }
        !self.listed.is_suspended(from)
    }

    /// Law 6, listed: a task that suspends has one Listed row before its own, and no other task has one; at most one listed task of a sender
    /// isn't resumed.
    pub fn keeps_listed(&self, row: &Row) -> bool
        ensures { (port : Opening) (s : State) → IsStateOf self.now port s → result ≡ keeps_listed s row.now }
    {
        match row {
            Row::Handled {
                from,
                seq,
                task,
                ..
            } => self.is_listed_right(*from, *seq, task),
            Row::Late { from, seq, task } => self.is_listed_right(*from, *seq, task),
            Row::Listed { from, seq } => self.may_list(*from, *seq),
            _ => true,
        }
    }

    /// Whether a sender may be resumed, where this word MSGQ was loaded for it.
    fn may_resume(&self, from: Sender, seq: u64, word: u64) -> bool
        ensures { (port : Opening) (s : State) → IsStateOf self.now port s → result ≡ keeps_resumed s (Row.Resumed from seq word) }
    {
        if !self.listed.is_first(from, seq) {
            return false;
        }
        if !self.is_open() {
            return true;
        }
        let busy = self.is_busy();
        let queue_busy = is_queue_busy(word);
        if busy {
            return false;
        }
        !queue_busy
    }

    /// Law 7, resumed: a resume names the first listed task that isn't resumed; the port isn't busy and the queue's word isn't either, or the
    /// port isn't open.
    pub fn keeps_resumed(&self, row: &Row) -> bool
        ensures { (port : Opening) (s : State) → IsStateOf self.now port s → result ≡ keeps_resumed s row.now }
    {
        match row {
            Row::Resumed { from, seq, word } => self.may_resume(*from, *seq, *word),
            _ => true,
        }
    }

    /// Whether a task of the poller is handled where it is to be, and late otherwise.
    fn is_served(&self, handled: bool, signal: &Signal) -> bool
        ensures { (port : Opening) (s : State) → IsStateOf self.now port s → result ≡ is_served s handled signal.now }
    {
        match signal {
            Signal::Ready { event, dir } => self.events.is_ready(*event, *dir) == handled,
            Signal::Dropped(event) => self.events.is_waiting(*event) == handled,
            _ => true,
        }
    }

    /// The same of a task.
    fn is_task_served(&self, handled: bool, task: &Task) -> bool
        ensures { (port : Opening) (s : State) → IsStateOf self.now port s → result ≡ is_served s handled task.now.signal }
    {
        self.is_served(handled, task.signal())
    }

    /// Law 8, ready: a Ready task is handled exactly where its event is selected in its direction and armed, a Dropped task exactly where its
    /// event waits for it.
    pub fn keeps_ready(&self, row: &Row) -> bool
        ensures { (port : Opening) (s : State) → IsStateOf self.now port s → result ≡ keeps_ready s row.now }
    {
        match row {
            Row::Handled { task, .. } => self.is_task_served(true, task),
            Row::Late { task, .. } => self.is_task_served(false, task),
            _ => true,
        }
    }

    /// Whether a job is told done where it was submitted and the driver isn't stopped, and late otherwise.
    fn is_told_in_time(&self, handled: bool, number: u64) -> bool
        ensures { (port : Opening) (s : State) → IsStateOf self.now port s → result ≡ is_told_in_time s handled number }
    {
        let submitted = self.jobs.is_submitted(number);
        let stopped = self.is_stopped();
        if !submitted {
            return !handled;
        }
        if stopped {
            return !handled;
        }
        handled
    }

    /// Whether this output of a job is told as it is to be.
    fn is_result_right(
        &self,
        alloc: Global,
        handled: bool,
        number: u64,
        output: &Piece,
    ) -> Result<bool, NoMemory>
        ensures { IfOk result (λ keeps. (port : Opening) (s : State) → IsStateOf self.now port s → keeps ≡ is_told_right s handled (Signal.AsyncDone number output.now)) }
    {
        let is_work = self.jobs.is_work(alloc, number, output)?;
        if self.jobs.is_done(number) {
            return Ok(false);
        }
        if !self.is_told_in_time(handled, number) {
            return Ok(false);
        }
        if !is_work {
            return Ok(false);
        }
        Ok(self.jobs.is_next_of_key(number))
    }

    /// Whether a job that a signal tells done is told as it is to be.
    fn is_told_right(&self, alloc: Global, handled: bool, signal: &Signal) -> Result<bool, NoMemory>
        ensures { IfOk result (λ keeps. (port : Opening) (s : State) → IsStateOf self.now port s → keeps ≡ is_told_right s handled signal.now) }
    {
        match signal {
            Signal::AsyncDone { number, output } => {
                self.is_result_right(alloc, handled, *number, output)
            }
            _ => Ok(true),
        }
    }

    /// The same of a task.
    fn is_task_told_right(
        &self,
        alloc: Global,
        handled: bool,
        task: &Task,
    ) -> Result<bool, NoMemory>
        ensures { IfOk result (λ keeps. (port : Opening) (s : State) → IsStateOf self.now port s → keeps ≡ is_told_right s handled task.now.signal) }
    {
        self.is_told_right(alloc, handled, task.signal())
    }

    /// Law 9, jobs: no job is told done twice. It is handled exactly where it was submitted and the driver isn't stopped; where it was
    /// submitted its output is the work of its code and input, and those of one key are told in the order of their numbers.
    pub fn keeps_jobs(&self, alloc: Global, row: &Row) -> Result<bool, NoMemory>
        ensures { IfOk result (λ keeps. (port : Opening) (s : State) → IsStateOf self.now port s → keeps ≡ keeps_jobs s row.now) }
    {
        match row {
            Row::Handled { task, .. } => self.is_task_told_right(alloc, true, task),
            Row::Late { task, .. } => self.is_task_told_right(alloc, false, task),
            _ => Ok(true),
        }
    }

    /// Law 10, end: the driver is stopped, each listed task is resumed, each used event had its `stop_select`, and each job has its row.
    pub fn keeps_end(&self) -> bool
        ensures { (port : Opening) (s : State) → IsStateOf self.now port s → result ≡ keeps_end s }
    {
        let stopped = self.is_stopped();
        if !stopped {
            return false;
        }
        if !self.listed.are_resumed() {
            return false;
        }
        if !self.events.are_given_back() {
            return false;
        }
        self.jobs.are_done()
    }

    /// Whether no mark is due.
    pub fn is_settled(&self) -> bool
        ensures { (port : Opening) (s : State) → IsStateOf self.now port s → result ≡ none_due s.due }
    {
        self.marks.are_settled()
    }
}
