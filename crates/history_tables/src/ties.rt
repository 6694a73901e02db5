//! The owner of a port, the processes that are linked to it, and those that have ended.
ghost use Rattle.std.specs.Prelude.{◌≡◌, ◌&&◌, OnOk, IfOk, if◌then◌else◌, Some, None};
ghost use Rattle.port_history.specs.Opening.{Opening, is_process};
ghost use Rattle.port_history.specs.Service.{caller_of};
ghost use Rattle.port_history.specs.Ties.{Ties, opened, may_own, with_owner, without, tied, tied_by, tied_late, untied, signal_reason, closes_for};
ghost use Rattle.port_signal.specs.Links.{exit_closes, end_closes};
ghost use Rattle.history_tables.specs.Tied.{Tied};

use crate::{NoMemory, Reason, Sender, Signal};
use std::alloc::Global;
use std::collections::BTreeSet;

/// The ties of one port to processes, but for monitors, which decide nothing in a history.
#[derive(Drop)]
pub struct PortTies {
    owner: u32,
    linked: BTreeSet<u32>,
    ended: BTreeSet<u32>,
}

fn reason_if(closes: bool, reason: &Reason) -> Option<Reason>
    ensures { result ≡ (if closes then Some reason.now else None) }
{
    if closes { Some(reason.same()) } else { None }
}

impl PortTies {
    /// The ties of a port that was just opened by its owner, who is linked.
    pub fn new(alloc: Global, owner: u32) -> Result<PortTies, NoMemory>
        ensures { IfOk result (λ table. Tied table (opened owner)) }
    {
        let mut linked = BTreeSet::new(alloc);
        linked.insert(owner)?;
        Ok(PortTies {
            owner,
            linked,
            ended: BTreeSet::new(alloc),
        })
    }

    /// The process whose signal is handled, and else the owner.
    pub fn caller(&self, from: Sender) -> u32
        ensures { (ties : Ties) → Tied self.now ties → result ≡ caller_of ties from }
    {
        match from {
            Sender::Process(process) => process,
            Sender::Poller | Sender::Worker(_) | Sender::Timer => self.owner,
        }
    }

    /// Whether the owner sent it.
    pub fn is_owner(&self, from: Sender) -> bool
        ensures { (ties : Ties) → Tied self.now ties → result ≡ is_process ties.owner from }
    {
        matches!(from, Sender::Process(process) if process == self.owner)
    }

    /// The reason for which a signal closes an open port, if it does. It is asked before the signal is noted.
    pub fn reason_to_close(&self, from: Sender, signal: &Signal) -> Option<Reason>
        ensures { (ties : Ties) → Tied self.now ties → result ≡ signal_reason ties from signal.now }
    {
        match from {
            Sender::Process(process) => self.process_reason_to_close(process, signal),
            Sender::Poller | Sender::Worker(_) | Sender::Timer => None,
        }
    }

    fn process_reason_to_close(&self, from: u32, signal: &Signal) -> Option<Reason>
        ensures { (ties : Ties) → Tied self.now ties → result ≡ closes_for ties from signal.now }
    {
        match signal {
            Signal::Close => Some(Reason::normal()),
            Signal::OwnerClose => reason_if(from == self.owner, &Reason::normal()),
            Signal::Exit(reason) => reason_if(self.closes(from, false, reason), reason),
            Signal::Gone(reason) => reason_if(self.closes(from, true, reason), reason),
            _ => None,
        }
    }

    /// Whether this reason closes the port: that of an exit signal of the process, or of its end where it is gone.
    fn closes(&self, process: u32, gone: bool, reason: &Reason) -> bool
        ensures { (ties : Ties) → Tied self.now ties
            → result ≡ (if gone then end_closes ties.owner ties.linked process reason.now else exit_closes ties.owner process reason.now) }
    {
        process == self.owner || ((!gone || self.linked.contains(&process)) && !reason.is_normal())
    }

    /// Takes in a signal that is handled, among so many processes, but for what the closing of the port takes away.
    pub fn note_handled(
        &mut self,
        from: Sender,
        signal: &Signal,
        processes: u32,
    ) -> Result<(), NoMemory>
        ensures { OnOk result ((port : Opening) (ties : Ties) → port.processes ≡ processes → Tied self.old ties → Tied self.new (tied port ties from signal.now)) }
    {
        match from {
            Sender::Process(process) => self.note_process_signal(process, signal, processes),
            Sender::Poller | Sender::Worker(_) | Sender::Timer => Ok(()),
        }
    }

    fn note_process_signal(
        &mut self,
        from: u32,
        signal: &Signal,
        processes: u32,
    ) -> Result<(), NoMemory>
        ensures { OnOk result ((port : Opening) (ties : Ties) → port.processes ≡ processes → Tied self.old ties → Tied self.new (tied_by port ties from signal.now)) }
    {
        match signal {
            Signal::Connect(process) => self.connect(*process, processes),
            Signal::OwnerConnect(process) => self.connect_by(from, *process, processes),
            Signal::Link => {
                self.linked.insert(from)?;
                Ok(())
            }
            Signal::Unlink => {
                self.linked.remove(&from);
                Ok(())
            }
            Signal::Gone(_) => self.note_end(from),
            _ => Ok(()),
        }
    }

    /// Whether there is such a process, and it hasn't ended.
    fn may_own(&self, process: u32, processes: u32) -> bool
        ensures { (port : Opening) (ties : Ties) → port.processes ≡ processes → Tied self.now ties → result ≡ may_own port ties process }
    {
        process < processes && !self.ended.contains(&process)
    }

    /// Makes the process the owner, and links it, where it may own the port.
    fn connect(&mut self, process: u32, processes: u32) -> Result<(), NoMemory>
        ensures { OnOk result ((port : Opening) (ties : Ties) → port.processes ≡ processes → Tied self.old ties
            → Tied self.new (if may_own port ties process then with_owner process ties else ties)) }
    {
        if !self.may_own(process, processes) {
            return Ok(());
        }
        self.linked.insert(process)?;
        self.owner = process;
        Ok(())
    }

    /// The same where the owner asks for it.
    fn connect_by(&mut self, from: u32, process: u32, processes: u32) -> Result<(), NoMemory>
        ensures { OnOk result ((port : Opening) (ties : Ties) → port.processes ≡ processes → Tied self.old ties
            → Tied self.new (tied_by port ties from (Signal.OwnerConnect process))) }
    {
        if from == self.owner {
            return self.connect(process, processes);
        }
        Ok(())
    }

    /// Notes that the process has ended: it has no link any more.
    fn note_end(&mut self, process: u32) -> Result<(), NoMemory>
        ensures { OnOk result ((ties : Ties) → Tied self.old ties → Tied self.new (without process ties)) }
    {
        self.ended.insert(process)?;
        self.linked.remove(&process);
        Ok(())
    }

    /// Takes in a signal that came late: that a process has ended is noted.
    pub fn note_late(&mut self, from: Sender, signal: &Signal) -> Result<(), NoMemory>
        ensures { OnOk result ((ties : Ties) → Tied self.old ties → Tied self.new (tied_late ties from signal.now)) }
    {
        match (from, signal) {
            (Sender::Process(process), Signal::Gone(_)) => self.note_end(process),
            _ => Ok(()),
        }
    }

    /// The port closes: it has no link any more.
    pub fn close(&mut self)
        ensures { (ties : Ties) → Tied self.old ties → Tied self.new (untied ties) }
    {
        self.linked.clear();
    }
}
