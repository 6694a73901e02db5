//! The rows of a port, gone through one by one.
ghost use Rattle.std.specs.Prelude.{◌≡◌, ◌<◌, ◌∷◌, [], ℕ, List, IfOk, OnOk, length, option_map, None, if◌then◌else◌};
ghost use Rattle.port_signal.specs.declared.outside.Outside.{Outside as OutsideValue};
ghost use Rattle.port_model.specs.declared.row.Row.{Row as RowValue};
ghost use Rattle.port_model.specs.declared.row.Row.TheVariants.{Handled, Late};
ghost use Rattle.port_model.specs.Tasks.{TaskView};
ghost use Rattle.port_history.specs.Opening.{Opening};
ghost use Rattle.port_history.specs.Service.{first_reason};
ghost use Rattle.port_history.specs.Ties.{failure, signal_reason};
ghost use Rattle.port_links.specs.Table.{IsAmong};
ghost use Rattle.run_report.specs.Ports.{IsFrom};
ghost use Rattle.run_report.specs.Walks.{IsWalked, data_given, untied_for};

use crate::counts::PortCounts;
use no_memory::NoMemory;
use port_links::Links;
use port_model::{Effect, Reason, Row, Sender, Signal};
use std::alloc::Global;

/// A port after the rows that were gone through: its ties, by which the owner of that moment is known, and what was counted.
#[derive(Drop)]
pub(crate) struct PortWalk {
    links: Links,
    counts: PortCounts,
}

/// The reason of the first failure among these effects.
fn failure(effects: &[Effect]) -> Option<Reason>
    ensures { result ≡ failure effects.now }
{
    for effect in effects {
        if let Effect::Fail(reason) = effect {
            return Some(reason.same());
        }
    }
    None
}

/// With how many bytes a handled signal calls `outputv`, if it does. An owner's command of another process calls nothing.
fn bytes_given(links: &Links, from: Sender, signal: &Signal) -> Option<u64>
    ensures { result ≡ option_map length (data_given links.now.ties from signal.now) }
{
    match signal {
        Signal::Command(payload) => Some(payload.size()),
        Signal::OwnerCommand(payload) if links.is_owner(from) => Some(payload.size()),
        _ => None,
    }
}

/// The reason for which a handled task closes the port: none where it is closed, the failure of its callback, or that of its signal.
fn closing_reason(
    links: &Links,
    is_closed: bool,
    from: Sender,
    signal: &Signal,
    effects: &[Effect],
) -> Option<Reason>
    ensures { result ≡ (if is_closed then None else first_reason (failure effects.now) (signal_reason links.now.ties from signal.now)) }
{
    if is_closed {
        return None;
    }
    match failure(effects) {
        Some(reason) => Some(reason),
        None => links.reason_to_close(from, signal),
    }
}

/// Takes the links and the monitors away where the port closes.
fn untie(links: &mut Links, reason: &Option<Reason>) -> Result<(), NoMemory>
    ensures ties { OnOk result (links.new.ties ≡ untied_for reason.now links.old.ties) }
    ensures processes { links.new.processes ≡ links.old.processes }
{
    if let Some(reason) = reason {
        links.end(0, reason)?;
    }
    Ok(())
}

impl PortWalk {
    /// The port as it was opened by one of so many processes.
    pub(crate) fn new(alloc: Global, owner: u32, processes: u32) -> Result<PortWalk, NoMemory>
        requires { owner < processes }
        ensures walked { IfOk result (λ walk. (port : Opening) → port.owner ≡ owner → port.processes ≡ processes → IsWalked port [] walk) }
        ensures processes { IfOk result (λ walk. walk.links.processes ≡ processes) }
    {
        Ok(PortWalk {
            links: Links::new(alloc, owner, processes)?,
            counts: PortCounts::new(),
        })
    }

    /// Goes through the next row.
    pub(crate) fn take(&mut self, row: &Row) -> Result<(), NoMemory>
        requires { IsFrom self.old.links.processes row.now }
        ensures walked { OnOk result ((port : Opening) (older : List RowValue) → IsWalked port older self.old → IsWalked port (row.now ∷ older) self.new) }
        ensures processes { self.new.links.processes ≡ self.old.links.processes }
    {
        match row {
            Row::Handled {
                from,
                task,
                effects,
                ..
            } => self.take_handled(*from, task.signal(), effects.as_slice()),
            Row::Late { from, task, .. } => self.take_late(*from, task.signal()),
            Row::Listed { .. } | Row::Resumed { .. } | Row::Mark(_) => Ok(()),
        }
    }

    /// Goes through the row of a task that the port handled: the ties are looked at before they change.
    fn take_handled(
        &mut self,
        from: Sender,
        signal: &Signal,
        effects: &[Effect],
    ) -> Result<(), NoMemory>
        requires { IsAmong self.old.links.processes from }
        ensures walked { OnOk result ((port : Opening) (older : List RowValue) (seq : ℕ) (task : TaskView) (outside : List OutsideValue) → task.signal ≡ signal.now → IsWalked port older self.old
            → IsWalked port (Handled from seq task outside effects.now ∷ older) self.new) }
        ensures processes { self.new.links.processes ≡ self.old.links.processes }
    {
        let bytes = bytes_given(&self.links, from, signal);
        let is_closed = self.counts.end.is_some();
        let reason = closing_reason(&self.links, is_closed, from, signal, effects);
        self.links.note_signal(from, signal)?;
        untie(&mut self.links, &reason)?;
        self.counts.note_end(&reason);
        self.counts.count_handled(bytes)
    }

    /// Goes through the row of a task that came late.
    fn take_late(&mut self, from: Sender, signal: &Signal) -> Result<(), NoMemory>
        requires { IsAmong self.old.links.processes from }
        ensures walked { OnOk result ((port : Opening) (older : List RowValue) (seq : ℕ) (task : TaskView) → task.signal ≡ signal.now → IsWalked port older self.old
            → IsWalked port (Late from seq task ∷ older) self.new) }
        ensures processes { self.new.links.processes ≡ self.old.links.processes }
    {
        self.links.note_late(from, signal);
        self.counts.count_late(signal.is_command())
    }

    /// What was counted.
    pub(crate) fn into_counts(self) -> PortCounts
        ensures { result ≡ self.counts }
    {
        self.counts
    }
}
