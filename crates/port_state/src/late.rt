//! A task that the port finds late.
ghost use Rattle.std.specs.Prelude.{◌≡◌};
ghost use Rattle.port_mail.specs.port_links.Table.{IsAmong};
ghost use Rattle.port_mail.specs.port_links.port_history.Opening.{Opening, Taken};
ghost use Rattle.port_mail.specs.port_links.port_history.State.{State, after_late};
ghost use Rattle.port_state.specs.View.{IsStateOf};

use crate::{Driver, PortState, Sender, Signal};

impl<D: Driver> PortState<D> {
    /// Takes in a task that came when it couldn't be handled any more: that its sender has ended is noted. No driver is called.
    pub fn note_late(&mut self, from: Sender, signal: &Signal)
        requires { IsAmong self.old.links.processes from }
        ensures state { (port : Opening) (s : State) (t : Taken) → t.from ≡ from → t.task.signal ≡ signal.now → IsStateOf self.old port s → IsStateOf self.new port (after_late s t) }
        ensures same { self.new ≡ record self.old { links = self.new.links } }
        ensures processes { self.new.links.processes ≡ self.old.links.processes }
    {
        self.links.note_late(from, signal);
    }
}
