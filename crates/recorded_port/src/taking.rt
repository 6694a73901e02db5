//! A task that comes to its row.
ghost use Rattle.std.specs.Prelude.{◌≡◌, ◌<◌, ◌≤◌, ◌∷◌, ◌++◌, [], ℕ, List, OnOk, IfSome};
ghost use Rattle.port_model.specs.declared.row.Row.TheVariants.{Handled, Late};
ghost use Rattle.port_lanes.specs.port_history.Mail.{handled_mail, row_mail};
ghost use Rattle.port_lanes.specs.port_history.Opening.{taken_of};
ghost use Rattle.port_lanes.specs.port_history.State.{State};
ghost use Rattle.port_mail.specs.Ends.{Posts};
ghost use Rattle.port_mail.specs.Rows.{IsRowOf};
ghost use Rattle.served_port.specs.View.{end_names};
ghost use Rattle.recorded_port.specs.View.{IsRecorded, IsSettled, removed_sizes};
ghost use Rattle.recorded_port.specs.Taking.{FoundMore, IsSameRecorded, IsSameSeat, MayTake, MayWrite, Takes, UsesRoom, WritesMarks, WritesNext, WritesTask, sizes_of};

use crate::{Driver, NoMemory, Parcel, RecordedPort, Row, Sender, Served, Task};
use port_mail::{HandledRow, Origin};
use port_words::busy::Weight;
use served_port::HandledOrLate;
use std::alloc::Global;
use std::sync::Wait;

impl<D: Driver> RecordedPort<D> {
    /// Takes in the next task of this sender, which has this place in the sender's order, from 0: it is handled or late, its row is written and its
    /// mail is put, what changed is marked in STAT, and a command's bytes are removed from MSGQ. That adds at most three rows, for which there has to be room. Want
    /// of memory is that of a callback, and then no row is written, or of a mail, and then the row stands and no later mail is put. After it nothing is said of a
    /// history any more; the driver can still be stopped.
    pub fn take<R: Wait>(
        &mut self,
        rt: &R,
        alloc: Global,
        from: Sender,
        seq: u64,
        parcel: Parcel,
    ) -> Result<(), NoMemory>
        requires settled { IsSettled self.old }
        requires may { MayTake self.old from seq parcel }
        requires room { 3 ≤ self.old.room }
        ensures same { IsSameRecorded self.old self.new }
        ensures room { UsesRoom self.old self.new }
        ensures settled { OnOk result (IsSettled self.new) }
        ensures takes { OnOk result (Takes self.old self.new from seq parcel.task) }
    {
        let (task, weight) = parcel.into_parts();
        self.write_task(rt, alloc, from, seq, task)?;
        self.write_marks();
        self.remove(rt, weight);
        Ok(())
    }

    /// Has the port handle a task or find it late, puts its mail and writes its row.
    fn write_task<R: Wait>(
        &mut self,
        rt: &R,
        alloc: Global,
        from: Sender,
        seq: u64,
        task: Task,
    ) -> Result<(), NoMemory>
        requires settled { IsSettled self.old }
        requires may { MayWrite self.old from seq task }
        requires room { 0 < self.old.room }
        ensures same { IsSameRecorded self.old self.new }
        ensures room { UsesRoom self.old self.new }
        ensures writes { OnOk result (WritesTask self.old self.new from seq task) }
    {
        match self.port.take(rt, alloc, from, seq, task.signal())? {
            HandledOrLate::Handled(served) => self.write_handled(rt, from, seq, task, served),
            HandledOrLate::Late => self.write_late(rt, from, seq, task),
        }
    }

    /// Puts the mail of a handled task and writes its row. Where a mail finds no memory, the row stands and no later mail is put.
    fn write_handled<R: Wait>(
        &mut self,
        rt: &R,
        from: Sender,
        seq: u64,
        task: Task,
        served: Served,
    ) -> Result<(), NoMemory>
        requires served { (s : State) × IsRowOf served.handling served.effects task.signal served.closing self.old.opening s (taken_of from seq task served.outside served.effects) }
        requires room { 0 < self.old.room }
        ensures ends { end_names self.new.ends ≡ end_names self.old.ends }
        ensures room { UsesRoom self.old self.new }
        ensures rows { self.new ≡ record self.old { rows = self.old.rows ++ Handled from seq task served.outside served.effects ∷ []; room = self.new.room; ends = self.new.ends } }
        ensures mail { OnOk result ((s : State) → IsRowOf served.handling served.effects task.signal served.closing self.old.opening s (taken_of from seq task served.outside served.effects)
            → Posts self.old.port.state.links.ties.ended self.old.ends self.new.ends (handled_mail self.old.opening s (taken_of from seq task served.outside served.effects))) }
    {
        let Served {
            outside,
            effects,
            handling,
            closing,
            ..
        } = served;
        let posted = self.mailboxes.post_row(
            rt,
            self.port.links(),
            HandledRow {
                handling,
                effects: effects.as_slice(),
                signal: task.signal(),
                closing,
            },
        );
        self.write(Row::Handled {
            from,
            seq,
            task,
            outside,
            effects,
        });
        posted
    }

    /// Puts the mail of a late task and writes its row.
    fn write_late<R: Wait>(
        &mut self,
        rt: &R,
        from: Sender,
        seq: u64,
        task: Task,
    ) -> Result<(), NoMemory>
        requires room { 0 < self.old.room }
        ensures same { IsSameRecorded self.old self.new }
        ensures room { UsesRoom self.old self.new }
        ensures rows { self.new ≡ record self.old { rows = self.old.rows ++ Late from seq task ∷ []; room = self.new.room; ends = self.new.ends } }
        ensures mail { OnOk result ((s : State) → Posts self.old.port.state.links.ties.ended self.old.ends self.new.ends (row_mail self.old.opening s (Late from seq task))) }
    {
        let posted = self.mailboxes.post_late_row(
            rt,
            self.port.links(),
            Origin {
                port: self.fixed.number,
                from,
                seq,
            },
            task.signal(),
        );
        self.write(Row::Late { from, seq, task });
        posted
    }

    /// Writes the marks that are due: at most a change of the busy state, and then the closed mark.
    fn write_marks(&mut self)
        requires recorded { (left : List ℕ) × IsRecorded self.old left }
        requires room { 2 ≤ self.old.room }
        ensures same { IsSameRecorded self.old self.new }
        ensures room { UsesRoom self.old self.new }
        ensures marks { (left : List ℕ) → IsRecorded self.old left → WritesMarks self.old self.new left }
    {
        if self.write_next_mark() {
            self.write_next_mark();
        }
    }

    /// Writes the mark that stands next, if one is due.
    fn write_next_mark(&mut self) -> bool
        requires recorded { (left : List ℕ) × IsRecorded self.old left }
        requires room { 0 < self.old.room }
        ensures same { IsSameRecorded self.old self.new }
        ensures room { UsesRoom self.old self.new }
        ensures next { (left : List ℕ) → IsRecorded self.old left → WritesNext result self.old self.new left }
    {
        let Some(kind) = self.port.next_mark() else {
            return false;
        };
        self.write_mark(kind);
        true
    }

    /// Removes the bytes of a command from MSGQ.
    fn remove<R: Wait>(&mut self, rt: &R, weight: Option<Weight>)
        requires { IfSome weight (λ w. w.table ≡ self.old.seat.table) }
        ensures rest { self.new ≡ record self.old { seat = self.new.seat } }
        ensures same { IsSameSeat self.old.seat self.new.seat }
        ensures found { FoundMore self.old.seat self.new.seat }
        ensures marks { self.new.seat.known.marks ≡ self.old.seat.known.marks }
        ensures sizes { removed_sizes self.new.seat ≡ removed_sizes self.old.seat ++ sizes_of weight }
    {
        if let Some(weight) = weight {
            self.seat.removed(rt, weight);
        }
    }
}
