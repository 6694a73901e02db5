// The end of a process, of which each port is told.
ghost use Rattle.std.specs.Prelude.{◌≡◌, ◌<◌, length, OnOk, OnErr};
ghost use Rattle.process_receipts.specs.declared.receipt.Receipt.{Receipt as TheReceipt};
ghost use Rattle.process_end.specs.Calls.{HasMissed};
ghost use Rattle.process_end.specs.Ports.{AllFree};
ghost use Rattle.process_end.specs.Ended.{gone_ask, HasLeftOff, HasTold, HasToldPort};

use crate::sides::Sides;
use no_memory::NoMemory;
use port_model::{Reason, Signal};
use process_receipts::How;
use std::sync::Wait;

impl Sides {
    /// Tells the next port that the process has ended.
    fn tell_next<R: Wait>(&mut self, rt: &R, reason: &Reason) -> Result<(), NoMemory>
        requires port { self.old.told < length self.old.lanes }
        requires free { AllFree self.old }
        ensures told { OnOk result ((receipt : TheReceipt) × HasToldPort reason.now self.old self.new receipt) }
        ensures missed { OnErr result (HasMissed self.old (gone_ask reason.now self.old.told) self.new) }
        ensures free { AllFree self.new }
    {
        let port = self.told;
        // A port has a number of 32 bits. No list of more ports is told to its end.
        let Some(next) = port.checked_add(1) else {
            return Err(NoMemory);
        };
        let signal = Signal::Gone(reason.same());
        self.ask(rt, 0, port, signal, How::Plain)?;
        self.told = next;
        Ok(())
    }

    /// Tells each port that has no receipt of it yet, by rising number, that the process has ended.
    pub(crate) fn tell_ports<R: Wait>(&mut self, rt: &R, reason: &Reason) -> Result<(), NoMemory>
        requires { AllFree self.old }
        ensures told { OnOk result (HasTold reason.now self.old self.new) }
        ensures all { OnOk result (self.new.told ≡ length self.new.lanes) }
        ensures missed { OnErr result (HasLeftOff reason.now self.old self.new) }
        ensures free { AllFree self.new }
    {
        for _ in self.told as usize..self.lanes.len() {
            self.tell_next(rt, reason)?;
        }
        Ok(())
    }
}
