//! The marks that are due.
ghost use Rattle.std.specs.Prelude.{◌≡◌, Option, None, [], IfSome, IfNone, true, false};
ghost use Rattle.port_mail.specs.port_links.port_history.State.{State, after};
ghost use Rattle.port_mail.specs.port_links.port_history.Opening.{Opening};
ghost use Rattle.port_mail.specs.port_links.port_history.Marks.{busy_after, busy_marks, is_due};
ghost use Rattle.port_model.specs.declared.row.Row.TheVariants.{Mark};
ghost use Rattle.port_state.specs.View.{IsStateOf, change_marks};

use crate::{Driver, Effect, MarkKind, PortState};

/// Whether a port is busy after these effects, where it was as is said before them.
pub(crate) fn busy_after(busy: bool, effects: &[Effect]) -> bool
    ensures { result ≡ busy_after busy effects.now }
{
    let mut now = busy;
    for effect in effects {
        if let Effect::Busy(busy) = effect {
            now = *busy;
        }
    }
    now
}

/// The change of the busy state, where there is one.
pub(crate) fn change(before: bool, after: bool) -> Option<bool>
    ensures { change_marks result ≡ busy_marks before after }
{
    if before == after { None } else { Some(after) }
}

impl<D: Driver> PortState<D> {
    /// The mark that stands next, if one is due; it then stands.
    pub fn next_mark(&mut self) -> Option<MarkKind>
        ensures marks { IfSome result (λ kind. (port : Opening) (s : State) → IsStateOf self.old port s → (is_due kind s.due ≡ true) × IsStateOf self.new port (after port s (Mark kind))) }
        ensures none { IfNone result ((port : Opening) (s : State) → IsStateOf self.old port s → s.due ≡ []) }
        ensures same { IfNone result (self.new ≡ self.old) }
        ensures kept { self.new ≡ record self.old { busy = self.new.busy; change = self.new.change; closes = self.new.closes } }
    {
        if let Some(busy) = self.change.take() {
            self.busy = busy;
            return Some(if busy { MarkKind::Busy } else { MarkKind::Free });
        }
        if self.closes {
            self.closes = false;
            return Some(MarkKind::Closed);
        }
        None
    }
}
