//! A task that the port handles.
ghost use Rattle.std.specs.Prelude.{◌≡◌, ◌≢◌, ◌≤◌, ◌&&◌, true, [], length, map, not, is_some, if◌then◌else◌, IfOk, OnOk};
ghost use Rattle.port_service.specs.port_driver.Context.{SameEvents};
ghost use Rattle.port_service.specs.port_driver.Faults.{failures, RisenBy};
ghost use Rattle.port_service.specs.port_driver.driver_model.Drivers.{held_events};
ghost use Rattle.port_mail.specs.port_links.Posts.{sent_of};
ghost use Rattle.port_mail.specs.port_links.Table.{IsAmong};
ghost use Rattle.port_model.specs.Tasks.{TaskView};
ghost use Rattle.port_model.specs.declared.signal.Sender.TheVariants.{Poller};
ghost use Rattle.port_model.specs.declared.signal.Signal.TheVariants.{Dropped};
ghost use Rattle.port_mail.specs.port_links.port_history.Mail.{closing_mail};
ghost use Rattle.port_mail.specs.port_links.port_history.Marks.{busy_after, busy_marks};
ghost use Rattle.port_mail.specs.port_links.port_history.Opening.{Opening, is_process, taken_of};
ghost use Rattle.port_mail.specs.port_links.port_history.Service.{caller_of, first_reason};
ghost use Rattle.port_mail.specs.port_links.port_history.State.{State, closer_of};
ghost use Rattle.port_mail.specs.port_links.port_history.Ties.{failure, Ties};
ghost use Rattle.port_state.specs.View.{IsStateOf, IsSamePort, change_marks, state_after};
ghost use Rattle.port_state.specs.Served.{IsServed, untied_for};

use crate::marks::{busy_after, change};
use crate::{Driver, Effect, Items, NoMemory, PortState, Reason, Sender, Served, Signal};
use port_mail::{Closing, Handling, Links, Post};
use port_service::{Caller, Handled, Life, PortStanding};
use std::alloc::Global;

/// Who calls: the process that sent a task, or else the owner.
fn caller(links: &Links, from: Sender) -> Caller
    ensures from { result.from ≡ from }
    ensures process { result.process ≡ caller_of links.now.ties from }
    ensures owns { result.owns ≡ is_process links.now.ties.owner from }
{
    let process = match from {
        Sender::Process(process) => process,
        Sender::Poller | Sender::Worker(_) | Sender::Timer => links.owner(),
    };
    Caller {
        from,
        process,
        owns: links.is_owner(from),
    }
}

/// Whether the driver failed the port.
fn fails(effects: &[Effect]) -> bool
    ensures { result ≡ is_some (failure effects.now) }
{
    for effect in effects {
        if let Effect::Fail(_) = effect {
            return true;
        }
    }
    false
}

/// The owner that asks for the close by this signal, where it closes the port.
fn closer_of(from: Sender, signal: &Signal) -> Option<u32>
    ensures { (ties : Ties) → result ≡ closer_of ties from signal.now }
{
    match (from, signal) {
        (Sender::Process(process), Signal::OwnerClose) => Some(process),
        _ => None,
    }
}

/// Whether a row closes the port as its signal asks: the driver didn't fail it.
fn closes_as_asked(reason: &Option<Reason>, effects: &[Effect]) -> bool
    ensures { result ≡ (is_some reason.now && not (is_some (failure effects.now))) }
{
    reason.is_some() && !fails(effects)
}

/// The owner that asked for the close: that of this signal, where the row closes the port as its signal asks.
fn closer_after(before: Option<u32>, asked: bool, from: Sender, signal: &Signal) -> Option<u32>
    ensures { (ties : Ties) → result ≡ (if asked then closer_of ties from signal.now else before) }
{
    if asked {
        closer_of(from, signal)
    } else {
        before
    }
}

/// The first of two reasons that is there.
fn first_reason(reason: Option<Reason>, other: Option<Reason>) -> Option<Reason>
    ensures { result ≡ first_reason reason other }
{
    match reason {
        Some(reason) => Some(reason),
        None => other,
    }
}

/// What the ties of a port that closes for this reason send, if it does. Its links and its monitors go.
#[inline(always)]
fn untie(
    links: &mut Links,
    alloc: Global,
    port: u32,
    reason: &Option<Reason>,
) -> Result<Vec<Post>, NoMemory>
    ensures posts { IfOk result (λ posts. map sent_of posts.items ≡ closing_mail port reason.now links.old.ties) }
    ensures ties { OnOk result (links.new.ties ≡ untied_for reason.now links.old.ties) }
    ensures processes { links.new.processes ≡ links.old.processes }
{
    match reason {
        Some(reason) => links.end(port, reason),
        None => Ok(Vec::new(alloc)),
    }
}

impl<D: Driver> PortState<D> {
    /// Handles a task while the driver is started: makes the calls of its row, and changes the ties. `held` are the events that the driver holds. After
    /// want of memory it says nothing of a history any more; its driver can still be stopped.
    pub fn serve(
        &mut self,
        alloc: Global,
        from: Sender,
        seq: u64,
        signal: &Signal,
        held: &[u32],
    ) -> Result<Served, NoMemory>
        requires started { self.old.service.stage ≡ Life.Started }
        requires among { IsAmong self.old.links.processes from }
        requires held { length held.now ≤ 64 }
        ensures same { IsSamePort self.old self.new }
        ensures faults { self.old.service.faults ≤ self.new.service.faults }
        ensures failed { IfOk result (λ made. RisenBy (failures made.outside) self.old.service.faults self.new.service.faults) }
        ensures life { self.new.service.stage ≢ Life.Fresh }
        ensures serves { IfOk result (λ made. (port : Opening) (s : State) (task : TaskView) → task.signal ≡ signal.now → IsStateOf self.old port s → s.due ≡ []
            → SameEvents held.now (held_events port.kind port.config s.calls)
            → IsServed port s (taken_of from seq task made.outside made.effects) signal.now made self.new) }
    {
        let handling = Handling::new(&self.links, self.number, from, seq, signal);
        let caller = caller(&self.links, from);
        let why = self.links.reason_to_close(from, signal);
        let stands = PortStanding {
            closing: self.reason.is_some(),
            held,
        };
        let made = self.service.handle(alloc, caller, signal, why, stands)?;
        self.links.note_signal(from, signal)?;
        let posts = untie(&mut self.links, alloc, self.number, &made.reason)?;
        Ok(self.note_row(from, signal, made, handling, posts))
    }

    /// Handles a task of the poller that tells that an event was dropped, once the driver is stopped: it calls nothing, and nothing changes.
    pub fn serve_dropped(&self, alloc: Global, seq: u64, event: u32) -> Served
        requires stopped { self.now.stopped ≡ true }
        ensures outside { result.outside ≡ [] }
        ensures serves { (port : Opening) (s : State) (task : TaskView) → task.signal ≡ Dropped event → IsStateOf self.now port s → s.due ≡ []
            → IsServed port s (taken_of Poller seq task result.outside result.effects) (Dropped event) result self.now }
    {
        let handling = Handling::new(
            &self.links,
            self.number,
            Sender::Poller,
            seq,
            &Signal::Dropped(event),
        );
        Served {
            outside: Items::new(alloc),
            effects: Items::new(alloc),
            handling,
            closing: Closing {
                posts: Vec::new(alloc),
                stops: false,
                closer: self.closer,
            },
            closes: false,
        }
    }

    /// Notes why the row closes the port, if it does, whether it stops the driver, and which marks are due.
    fn note_row(
        &mut self,
        from: Sender,
        signal: &Signal,
        made: Handled,
        handling: Handling,
        posts: Vec<Post>,
    ) -> Served
        ensures state { (ties : Ties) → self.new ≡ record (state_after ties from signal.now made self.old) { change = self.new.change } }
        ensures change { change_marks self.new.change ≡ busy_marks self.old.busy (busy_after self.old.busy made.effects) }
        ensures row { result ≡ record { outside = made.outside; effects = made.effects; handling = handling; closing = record { posts = posts; stops = made.stops; closer = self.new.closer }; closes = is_some made.reason } }
    {
        let Handled {
            outside,
            effects,
            reason,
            stops,
        } = made;
        let closes = reason.is_some();
        let asked = closes_as_asked(&reason, effects.as_slice());
        self.closer = closer_after(self.closer, asked, from, signal);
        self.reason = first_reason(reason, self.reason.take());
        self.stopped |= stops;
        self.change = change(self.busy, busy_after(self.busy, effects.as_slice()));
        self.closes = closes;
        let closer = self.closer;
        Served {
            outside,
            effects,
            handling,
            closing: Closing {
                posts,
                stops,
                closer,
            },
            closes,
        }
    }
}
