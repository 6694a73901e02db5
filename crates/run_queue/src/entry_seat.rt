ghost use Rattle.std.specs.Prelude.{◌≡◌, ◌<◌, List, [], ◌∷◌, Some, None, IfOk, IfSome, IfNone, IfErr, OnOk, OnErr};
ghost use Rattle.std.specs.Arc.{arc_value};
ghost use Rattle.crossbeam_deque.specs.Injected.{IsInjectorPassOf, injector_view};
ghost use Rattle.run_queue.specs.Account.{all_parts, first_hand, after_take, other_parts, one_part, WasEmpty, IsLeft};
ghost use Rattle.port_words.specs.declared.home.homes.Ticket.{Ticket};
ghost use Rattle.run_queue.specs.Seats.{EntryKnown, entry_known, put_entry, took_entry, joined_entry, EntrySawEmpty};

use crate::account::{EachOnce, OnePart, PutsTicket, QueueHand, TakesTicket, Together};
use crossbeam_deque::{Injector, InjectorPass, Steal};
use no_memory::NoMemory;
use port_words::home::Ticket;
use std::alloc::Global;
use std::marker::Model;
use std::sync::{Arc, Wait};
use wake_ups::{Idle, Waiter};

pub(crate) type Inlet = Injector<Ticket, Global, QueueHand, EachOnce>;

pub(crate) type EntryPass = InjectorPass<Ticket, QueueHand>;

/// An end of the injector, for a job beside the schedulers. A clause sees which injector it is, and what this end knows of it.
#[derive(Drop)]
pub struct EntrySeat {
    injector: Arc<Inlet, Global>,
    pass: EntryPass,
    // where each scheduler waits, by its number
    waiters: Arc<Vec<Waiter>, Global>,
}

impl Model for EntrySeat {
    ghost use Rattle.std.specs.Prelude.{◌<◌};
    ghost use Rattle.std.specs.Arc.{arc_value};
    ghost use Rattle.crossbeam_deque.specs.Injected.{IsInjectorPassOf, injector_view};
    ghost use Rattle.run_queue.specs.Seats.{EntryKnown, entry_known};

    ghost Value = { EntryKnown };

    ghost view = { λ e. entry_known (arc_value e.injector).queue.web (injector_view e.pass) };

    ghost invariant = { λ e. IsInjectorPassOf (arc_value e.injector) e.pass × (0 < (injector_view e.pass).parts) };
}

impl EntrySeat {
    // The first end of a new injector, with every part, beside so many schedulers.
    pub(crate) fn open(alloc: Global, schedulers: u32) -> Result<EntrySeat, NoMemory>
        ensures { IfOk result (λ e. e.hand ≡ first_hand) }
    {
        let (injector, pass) = Inlet::new_as(alloc)?;
        let injector = Arc::new(alloc, injector)?;
        let waiters = Arc::new(alloc, waiters(alloc, schedulers)?)?;
        Ok(EntrySeat {
            injector,
            pass,
            waiters,
        })
    }

    // Another end, with one part.
    pub(crate) fn split(&mut self) -> Result<EntrySeat, NoMemory>
        requires { 1 < self.old.hand.parts }
        ensures ok { IfOk result (λ e. (e ≡ entry_known self.old.injector (one_part self.old.hand)) × (self.new ≡ entry_known self.old.injector (other_parts self.old.hand))) }
        ensures refused { OnErr result (self.new ≡ self.old) }
    {
        let injector = Arc::try_clone(&self.injector)?;
        let waiters = Arc::try_clone(&self.waiters)?;
        let pass = self.injector.another::<OnePart>(&mut self.pass);
        Ok(EntrySeat {
            injector,
            pass,
            waiters,
        })
    }

    /// Puts a ticket behind all that the injector has, and wakes a scheduler, where one waits. Where no memory is found the ticket comes back. It may spin while another
    /// thread is in a call.
    pub fn put<R: Wait>(&mut self, rt: &R, ticket: Ticket) -> Result<(), (Ticket, NoMemory)>
        ensures ok { OnOk result (self.new ≡ put_entry (ticket ∷ []) self.old) }
        ensures refused { IfErr result (λ e. (e.0 ≡ ticket) × (self.new ≡ self.old)) }
    {
        match self
            .injector
            .push_as::<PutsTicket, R>(rt, &mut self.pass, ticket)
        {
            Ok(()) => {
                self.wake_one();
                Ok(())
            }
            Err(ticket) => Err((ticket, NoMemory)),
        }
    }

    // Wakes the first scheduler that waits.
    fn wake_one(&self) {
        for waiter in self.waiters.iter() {
            if waiter.wake() {
                return;
            }
        }
    }

    /// Wakes each scheduler that waits, so that it looks whether the run is over.
    pub fn wake_all(&self) {
        for waiter in self.waiters.iter() {
            waiter.wake();
        }
    }

    // The scheduler of this number waits a little.
    pub(crate) fn rest<R: Wait>(&self, rt: &R, number: usize, idle: &Idle) {
        match self.waiters.get(number) {
            Some(waiter) => idle.wait_at(rt, waiter),
            None => idle.wait(rt),
        }
    }

    /// Takes the first ticket, or finds the injector empty. It tries again where another thread was before it.
    pub(crate) fn take<R: Wait>(&mut self, rt: &R) -> Option<Ticket>
        ensures some { IfSome result (λ t. self.new ≡ took_entry (t ∷ []) self.old) }
        ensures none { IfNone result ((self.new ≡ self.old) × EntrySawEmpty self.old) }
    {
        take_by(rt, &self.injector, &mut self.pass)
    }

    /// Ends the injector, by the one end that has every part, and takes out what is left in it.
    pub(crate) fn close<R: Wait>(mut self, rt: &R)
        requires { self.hand.parts ≡ all_parts }
        ensures { (left : List Ticket) × IsLeft self.hand left }
    {
        'tickets: for _ in rt.forever() {
            if self.take(rt).is_none() {
                return;
            }
        }
        unreachable!()
    }

    /// Takes in another end of the same injector.
    pub(crate) fn join(&mut self, other: EntrySeat)
        requires { other.injector ≡ self.old.injector }
        ensures { self.new ≡ joined_entry self.old other }
    {
        let EntrySeat {
            injector,
            pass,
            waiters,
        } = other;
        self.injector.absorb::<Together>(&mut self.pass, pass);
        drop(injector);
        drop(waiters);
    }
}

// Where schedulers wait, one for each.
fn waiters(alloc: Global, schedulers: u32) -> Result<Vec<Waiter>, NoMemory> {
    let mut all = Vec::new(alloc);
    for _ in 0..schedulers {
        all.push(Waiter::new())?;
    }
    Ok(all)
}

fn take_by<R: Wait>(rt: &R, injector: &Inlet, pass: &mut EntryPass) -> Option<Ticket>
    requires { IsInjectorPassOf injector.now pass.old × (0 < (injector_view pass.old).parts) }
    ensures same { IsInjectorPassOf injector.now pass.new }
    ensures some { IfSome result (λ t. injector_view pass.new ≡ after_take (t ∷ []) (injector_view pass.old)) }
    ensures none { IfNone result ((injector_view pass.new ≡ injector_view pass.old) × WasEmpty (injector_view pass.old)) }
{
    'tries: for _ in rt.forever() {
        match injector.steal_as::<TakesTicket, R>(rt, pass) {
            Steal::Success(ticket) => return Some(ticket),
            Steal::Empty => return None,
            Steal::Retry => {}
        }
    }
    unreachable!()
}
