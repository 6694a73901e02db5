//! The marks of a history.
ghost use Rattle.std.specs.Prelude.{◌≡◌, ◌∷◌, ◌++◌, [], List, drop, true};
ghost use Rattle.port_signal.specs.declared.mark.MarkKind.{MarkKind as MarkView};
ghost use Rattle.port_history.specs.Marks.{is_busy, busy_after, busy_marks, is_due, none_due};
ghost use Rattle.history_tables.specs.Marked.{Marked, change_marks, closed_mark};

use crate::{Effect, MarkKind};

/// Whether a port is busy by its marks, and which marks have to stand next: that of a change of the busy state, and then the closed mark.
#[derive(Clone, Copy, Debug, PartialEq, Eq)]
pub struct PortMarks {
    busy: bool,
    change: Option<bool>,
    closes: bool,
}

/// Whether a port is busy after these effects, where it was as is said before them.
fn busy_after(busy: bool, effects: &[Effect]) -> bool
    ensures { result ≡ busy_after busy effects.now }
{
    let mut now = busy;
    for effect in effects {
        if let Effect::Busy(busy) = effect {
            now = *busy;
        }
    }
    now
}

/// The change of the busy state, where there is one.
fn change(before: bool, after: bool) -> Option<bool>
    ensures { change_marks result ≡ busy_marks before after }
{
    if before == after { None } else { Some(after) }
}

impl PortMarks {
    /// No mark stands, and none is due.
    pub fn new() -> PortMarks
        ensures { Marked result [] [] }
    {
        PortMarks {
            busy: false,
            change: None,
            closes: false,
        }
    }

    pub fn is_busy(&self) -> bool
        ensures { (marks due : List MarkView) → Marked self.now marks due → result ≡ is_busy marks }
    {
        self.busy
    }

    /// Whether no mark has to stand next.
    pub fn are_settled(&self) -> bool
        ensures { (marks due : List MarkView) → Marked self.now marks due → result ≡ none_due due }
    {
        self.change.is_none() && !self.closes
    }

    /// Whether this mark has to stand next.
    pub fn is_due(&self, kind: MarkKind) -> bool
        ensures { (marks due : List MarkView) → Marked self.now marks due → result ≡ is_due kind due }
    {
        match (self.change, kind) {
            (Some(busy), MarkKind::Busy) => busy,
            (Some(busy), MarkKind::Free) => !busy,
            (None, MarkKind::Closed) => self.closes,
            _ => false,
        }
    }

    /// Takes in the mark that had to stand next.
    pub fn put(&mut self, kind: MarkKind)
        ensures { (marks due : List MarkView) → Marked self.old marks due → is_due kind due ≡ true → Marked self.new (kind ∷ marks) (drop 1 due) }
    {
        match self.change.take() {
            Some(busy) => self.busy = busy,
            None => self.closes = false,
        }
    }

    /// Takes in a handled task where no mark was due: its effects, and whether its row closes the port.
    pub fn note(&mut self, effects: &[Effect], closes: bool)
        ensures { (marks due : List MarkView) → Marked self.old marks due
            → Marked self.new marks (busy_marks (is_busy marks) (busy_after (is_busy marks) effects.now) ++ closed_mark closes) }
    {
        self.change = change(self.busy, busy_after(self.busy, effects));
        self.closes = closes;
    }
}
