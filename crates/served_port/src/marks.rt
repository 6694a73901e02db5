ghost use Rattle.std.specs.Prelude.{◌≡◌, [], true, IfSome, IfNone};
ghost use Rattle.port_events.specs.port_history.Marks.{is_due};
ghost use Rattle.port_events.specs.port_history.Opening.{Opening};
ghost use Rattle.port_events.specs.port_history.State.{State, after};
ghost use Rattle.port_model.specs.declared.row.Row.TheVariants.{Mark};
ghost use Rattle.served_port.specs.View.{IsAt};

use crate::{Driver, MarkKind, ServedPort};

impl<D: Driver> ServedPort<D> {
    /// The mark that stands next, if one is due; it then stands.
    pub fn next_mark(&mut self) -> Option<MarkKind>
        ensures marks { IfSome result (λ kind. (port : Opening) (s : State) → IsAt self.old port s → (is_due kind s.due ≡ true) × IsAt self.new port (after port s (Mark kind))) }
        ensures none { IfNone result ((port : Opening) (s : State) → IsAt self.old port s → s.due ≡ []) }
        ensures same { IfNone result (self.new ≡ self.old) }
        ensures kept { self.new ≡ record self.old { state = record self.old.state { busy = self.new.state.busy; change = self.new.state.change; closes = self.new.state.closes } } }
    {
        self.state.next_mark()
    }
}
