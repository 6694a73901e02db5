// A process that may send.
ghost use Rattle.std.specs.Prelude.{◌≡◌, ◌<◌, ℕ, List, [], length, true, slice_index_or, IfOk, IfErr};
ghost use Rattle.port_words.specs.busy.Known.{SendKnown};
ghost use Rattle.port_lanes.specs.Parcels.{names_below};
ghost use Rattle.process_receipts.specs.declared.how.How.TheVariants.{Plain};
ghost use Rattle.process_receipts.specs.Asks.{Asked, asked};
ghost use Rattle.process_receipts.specs.Ledgers.{OncePlain};
ghost use Rattle.process_end.specs.Views.{LaneEnd, proc_view};
ghost use Rattle.process_end.specs.Ports.{AreParts};
ghost use Rattle.process_end.specs.Calls.{HasAsked};

use crate::answers::{Ask, Commanded, ProcEnd, ProcParts, SendRefusal};
use crate::sides::{Sides, opened};
use crate::telling::{answer, command, commanded, signal_of};
use io_vector::IoVec;
use no_memory::NoMemory;
use port_model::{Mail, Reason};
use process_receipts::How;
use std::alloc::Global;
use std::marker::Model;
use std::sync::Wait;
use task_queue::Idle;

/// A process that may send to its ports.
pub struct Proc {
    pub(crate) sides: Sides,
}

// Its parts go by one call, which is proved once and not in each function that may let one go.
impl Drop for Proc {
    fn drop(self) {
        let Self { sides: _ } = self;
    }
}

impl Model for Proc {
    ghost use Rattle.process_end.specs.Views.{ProcView};
    ghost use Rattle.process_end.specs.Ports.{AllFree};

    ghost Value = { ProcView };

    ghost view = { λ p. p.sides };

    ghost invariant = { λ p. AllFree p.sides };
}

impl Proc {
    ghost use Rattle.process_end.specs.Commanded.{command_of, signal_of, HasCommanded, HasSignalled};
    ghost use Rattle.process_end.specs.Mailbox.{HasTaken};
    ghost use Rattle.process_end.specs.Looked.{HasLookedAt};
    ghost use Rattle.process_end.specs.Ended.{HasEnded, HasLeftOff};

    /// A process that has made no call. It takes no memory.
    pub fn new(alloc: Global, parts: ProcParts) -> Proc
        requires { AreParts parts.number parts.mailbox parts.lanes.items parts.seats.items parts.soft.items }
        ensures process { result ≡ proc_view parts.number parts.mailbox parts.lanes.items parts.seats.items parts.soft.items [] 0 0 }
        ensures asked { HasAsked [] result }
    {
        Proc {
            sides: opened(alloc, parts),
        }
    }

    /// Makes room for the receipts of so many calls. Nothing else changes, and where memory is wanting nothing at all.
    pub fn reserve(&mut self, calls: usize) -> Result<(), NoMemory>
        ensures { self.new ≡ self.old }
    {
        self.sides.reserve(calls)
    }

    /// The place of the process in the order of declaration, from 0.
    pub fn number(&self) -> u32
        ensures { result ≡ self.now.number }
    {
        self.sides.number()
    }

    /// The STAT word of a port, by one load: four times the marks that the port has made, plus 2 where it is closed, plus 1 where it is busy.
    /// It leaves no receipt, and takes no memory.
    pub fn look(&mut self, port: u32) -> u64
        requires { port < length self.old.lanes }
        ensures { HasLookedAt port self.old self.new result }
    {
        self.sides.look(port)
    }

    /// Sends a command to a port, as `port_command` of module erlang: a busy port suspends the sender, or drops the command, or takes it, by `how`.
    /// The payload is moved into the port's lane, or dropped.
    pub fn command<R: Wait>(
        self,
        rt: &R,
        line: u32,
        port: u32,
        payload: IoVec,
        how: How,
    ) -> Commanded
        requires { port < length self.lanes }
        ensures { HasCommanded self (asked line port (command_of how payload) how) result }
    {
        let Proc { mut sides } = self;
        let signal = command(how, payload);
        let len = signal.size();
        match sides.ask(rt, line, port, signal, how) {
            Ok(receipt) => commanded(sides, &receipt, len),
            Err(NoMemory) => Commanded::Refused(Proc { sides }, SendRefusal::NoMemory),
        }
    }

    /// Sends a signal that is no command to a port. Answers its place among the signals of the process to the port, from 0.
    pub fn signal<R: Wait>(
        &mut self,
        rt: &R,
        line: u32,
        port: u32,
        ask: Ask,
    ) -> Result<u64, SendRefusal>
        requires port { port < length self.old.lanes }
        requires named { (d : LaneEnd) → names_below (slice_index_or self.old.lanes port d).key.processes (signal_of ask) ≡ true }
        ensures { HasSignalled self.old (asked line port (signal_of ask) Plain) self.new result }
    {
        let signal = signal_of(ask);
        let len = signal.size();
        match self.sides.ask(rt, line, port, signal, How::Plain) {
            Ok(receipt) => answer(&receipt, len),
            Err(NoMemory) => Err(SendRefusal::NoMemory),
        }
    }

    /// The next mail. None only where the mailbox was empty at a step of this call. It takes no memory.
    pub fn mail<R: Wait>(&mut self, rt: &R) -> Option<Mail>
        ensures rest { self.new ≡ record self.old { mailbox = self.new.mailbox } }
        ensures taken { HasTaken self.old.mailbox self.new.mailbox result }
        ensures asked { (asks : List Asked) → HasAsked asks self.old → HasAsked asks self.new }
    {
        self.sides.mail(rt)
    }

    /// Waits a little for mail, longer each time, as `Idle::wait_at`. Mail that is put ends the wait. It takes none.
    pub fn rest<R: Wait>(&self, rt: &R, idle: &Idle) {
        self.sides.rest(rt, idle);
    }

    /// Ends the process for a reason, as `exit/1` of module erlang: the ports are told by rising number, but for those that are found closed, each with a receipt of line 0.
    /// After `NoMemory` the ports below the one that found none have their receipts, and a second call goes on with the others.
    pub fn exit_process<R: Wait>(self, rt: &R, reason: Reason) -> Result<ProcEnd, (Proc, NoMemory)>
        ensures ended { IfOk result (λ end. HasEnded reason self end.receipts end.mailbox end.lanes.items end.seats.items) }
        ensures once { IfOk result (λ end. (k : ℕ) (d : SendKnown) → k < length end.lanes.items → OncePlain (slice_index_or end.seats.items k d).sender.ledger) }
        ensures left { IfErr result (λ e. HasLeftOff reason self e.0) }
    {
        let Proc { mut sides } = self;
        match sides.tell_ports(rt, &reason) {
            Ok(()) => Ok(sides.into_end()),
            Err(no_memory) => Err((Proc { sides }, no_memory)),
        }
    }
}
