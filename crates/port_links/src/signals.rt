ghost use Rattle.std.specs.Prelude.{◌≡◌, true, Some, None, OnOk, OnErr, if◌then◌else◌};
ghost use Rattle.port_history.specs.Opening.{Opening};
ghost use Rattle.port_history.specs.Ties.{tied, tied_by, tied_late, closes_for, signal_reason};
ghost use Rattle.port_links.specs.Table.{IsAmong, is_monitor};

use crate::{Links, NoMemory, Reason, Sender, Signal};

fn reason_if(closes: bool, reason: &Reason) -> Option<Reason>
    ensures { result ≡ (if closes then Some reason.now else None) }
{
    if closes { Some(reason.same()) } else { None }
}

impl Links {
    /// Takes in a signal that the port handles: what it does to the ties, but for what the closing of the port takes away.
    pub fn note_signal(&mut self, from: Sender, signal: &Signal) -> Result<(), NoMemory>
        requires { IsAmong self.old.processes from }
        ensures ok { OnOk result ((port : Opening) → port.processes ≡ self.old.processes → self.new.ties ≡ tied port self.old.ties from signal.now) }
        ensures err { OnErr result (self.new ≡ self.old) }
        ensures memory { OnErr result (is_monitor signal.now ≡ true) }
        ensures processes { self.new.processes ≡ self.old.processes }
    {
        match from {
            Sender::Process(process) => self.note_process_signal(process, signal),
            Sender::Poller | Sender::Worker(_) | Sender::Timer => Ok(()),
        }
    }

    /// Takes in a signal that the port finds late: that a process has ended is noted. It takes no memory.
    pub fn note_late(&mut self, from: Sender, signal: &Signal)
        requires { IsAmong self.old.processes from }
        ensures { self.new ≡ record self.old { ties = tied_late self.old.ties from signal.now } }
    {
        if let (Sender::Process(process), Signal::Gone(_)) = (from, signal) {
            self.gone(process);
        }
    }

    /// The reason for which a signal closes an open port, if it does. It is asked before the signal is noted.
    pub fn reason_to_close(&self, from: Sender, signal: &Signal) -> Option<Reason>
        ensures { result ≡ signal_reason self.now.ties from signal.now }
    {
        match from {
            Sender::Process(process) => self.process_reason_to_close(process, signal),
            Sender::Poller | Sender::Worker(_) | Sender::Timer => None,
        }
    }

    fn note_process_signal(&mut self, from: u32, signal: &Signal) -> Result<(), NoMemory>
        requires { IsAmong self.old.processes (Sender.Process from) }
        ensures ok { OnOk result ((port : Opening) → port.processes ≡ self.old.processes → self.new.ties ≡ tied_by port self.old.ties from signal.now) }
        ensures err { OnErr result (self.new ≡ self.old) }
        ensures memory { OnErr result (is_monitor signal.now ≡ true) }
        ensures processes { self.new.processes ≡ self.old.processes }
    {
        match signal {
            Signal::Connect(process) => {
                self.connect(*process);
            }
            Signal::OwnerConnect(process) => self.connect_by(from, *process),
            Signal::Link => self.link(from),
            Signal::Unlink => self.unlink(from),
            Signal::Monitor(number) => self.monitor(from, *number)?,
            Signal::Demonitor(number) => {
                self.demonitor(from, *number);
            }
            Signal::Gone(_) => self.gone(from),
            _ => {}
        }
        Ok(())
    }

    /// Makes the process the owner where the owner asks for it, and the process may own the port.
    fn connect_by(&mut self, from: u32, process: u32)
        ensures ties { (port : Opening) → port.processes ≡ self.old.processes → self.new.ties ≡ tied_by port self.old.ties from (Signal.OwnerConnect process) }
        ensures processes { self.new.processes ≡ self.old.processes }
    {
        if from == self.owner() {
            self.connect(process);
        }
    }

    fn process_reason_to_close(&self, from: u32, signal: &Signal) -> Option<Reason>
        ensures { result ≡ closes_for self.now.ties from signal.now }
    {
        match signal {
            Signal::Close => Some(Reason::normal()),
            Signal::OwnerClose => reason_if(from == self.owner(), &Reason::normal()),
            Signal::Exit(reason) => reason_if(self.closes(from, false, reason), reason),
            Signal::Gone(reason) => reason_if(self.closes(from, true, reason), reason),
            _ => None,
        }
    }
}
