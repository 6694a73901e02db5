ghost use Rattle.std.specs.Prelude.{◌≡◌, ◌+◌, ◌<◌, List, [], ◌∷◌, length, slice_get, Some, IfSome, IfNone, IfErr, OnOk, All};
ghost use Rattle.port_words.specs.declared.home.homes.Ticket.{Ticket};
ghost use Rattle.run_queue.specs.Seats.{RunKnown, run_known, put_own, took_own, put_by_owner, OwnerSawEmpty, OthersSawEmpty, Stole, Took, EachSawEmpty, AreOfOneQueue, joined_seat, joined_deques, joined_entry, changed_at, DequeKnown, OwnsItsDeque, IsDequeEnd, HasGuest, SawEmptyAt, GuestSawEmpty, stole, joined_deque, CanJoin, CanJoinEach, KeepsEnds, TookOwn, OwnSawEmpty, EntrySawEmpty, took_entry, HasEvery, HasAll, IsLeftOf, AreLeftOf, counted, stolen_by};

use crate::deque_end::DequeEnd;
use crate::entry_seat::EntrySeat;
use no_memory::NoMemory;
use port_words::home::Ticket;
use std::marker::Model;
use std::sync::Wait;
use wake_ups::Idle;

/// A scheduler's seat: it owns the deque of its number, from 0, and can take of each other deque and of the injector. A clause sees what it knows of each.
#[derive(Drop)]
pub struct RunSeat {
    number: usize,
    seats: usize,
    deques: Vec<DequeEnd>,
    entry: EntrySeat,
}

impl Model for RunSeat {
    ghost use Rattle.std.specs.Prelude.{length, All};
    ghost use Rattle.run_queue.specs.Seats.{RunKnown, run_known, IsDequeEnd, OwnsItsDeque};

    ghost Value = { RunKnown };

    ghost view = { λ s. run_known s.number s.seats s.deques.items s.entry };

    ghost invariant = { λ s. OwnsItsDeque s.number s.deques.items × All (IsDequeEnd (length s.deques.items) s.seats) s.deques.items };
}

// The owner of the deque of this number pushes a ticket.
fn put_at(deques: &mut Vec<DequeEnd>, number: usize, ticket: Ticket) -> Result<(), Ticket>
    requires { OwnsItsDeque number deques.old.items }
    ensures kept { KeepsEnds deques.old.items deques.new.items }
    ensures ok { OnOk result (deques.new.items ≡ changed_at (put_own (ticket ∷ [])) number deques.old.items) }
    ensures refused { IfErr result (λ t. (t ≡ ticket) × (deques.new.items ≡ deques.old.items)) }
{
    deques[number].put(ticket)
}

// The owner of the deque of this number takes the first ticket.
fn take_at(deques: &mut Vec<DequeEnd>, number: usize) -> Option<Ticket>
    requires { OwnsItsDeque number deques.old.items }
    ensures kept { KeepsEnds deques.old.items deques.new.items }
    ensures some { IfSome result (λ t. deques.new.items ≡ changed_at (took_own (t ∷ [])) number deques.old.items) }
    ensures none { IfNone result ((deques.new.items ≡ deques.old.items) × SawEmptyAt OwnerSawEmpty number deques.old.items) }
{
    deques[number].take()
}

// A guest of the deque of this number takes the first ticket.
fn steal_at<R: Wait>(rt: &R, deques: &mut Vec<DequeEnd>, number: usize) -> Option<Ticket>
    requires { (number < length deques.old.items) × All HasGuest deques.old.items }
    ensures kept { KeepsEnds deques.old.items deques.new.items }
    ensures some { IfSome result (λ t. deques.new.items ≡ changed_at (stole (t ∷ [])) number deques.old.items) }
    ensures none { IfNone result ((deques.new.items ≡ deques.old.items) × SawEmptyAt GuestSawEmpty number deques.old.items) }
{
    deques[number].steal(rt)
}

// Takes the first ticket of the first of the other deques, by rising number, that isn't empty.
fn steal_from_others<R: Wait>(rt: &R, deques: &mut Vec<DequeEnd>, own: usize) -> Option<Ticket>
    requires { All HasGuest deques.old.items }
    ensures kept { KeepsEnds deques.old.items deques.new.items }
    ensures some { IfSome result (λ t. Stole own t deques.old.items deques.new.items) }
    ensures none { IfNone result ((deques.new.items ≡ deques.old.items) × OthersSawEmpty own (length deques.old.items) deques.old.items) }
{
    'others: for number in 0..deques.len() {
        if number != own {
            if let Some(ticket) = steal_at(rt, deques, number) {
                return Some(ticket);
            }
        }
    }
    None
}

// Takes in the ends of the deque of this number.
fn join_at(deques: &mut Vec<DequeEnd>, number: usize, other: DequeEnd)
    requires join { (k : DequeKnown) → slice_get deques.old.items number ≡ Some k → CanJoin k other }
    requires exists { number < length deques.old.items }
    ensures { deques.new.items ≡ changed_at (λ k. joined_deque k other) number deques.old.items }
{
    deques[number].join(other);
}

// Takes in the ends of each deque.
fn join_each(deques: &mut Vec<DequeEnd>, mut others: Vec<DequeEnd>)
    requires { CanJoinEach deques.old.items others.items }
    ensures { deques.new.items ≡ joined_deques deques.old.items others.items }
{
    'deques: while let Some(other) = others.pop() {
        join_at(deques, others.len(), other);
    }
}

impl RunSeat {
    // A seat of a queue that was just made.
    pub(crate) fn new(number: usize, deques: Vec<DequeEnd>, entry: EntrySeat) -> RunSeat
        requires { OwnsItsDeque number deques.items × All (IsDequeEnd (length deques.items) 1) deques.items }
        ensures { result ≡ run_known number 1 deques.items entry }
    {
        RunSeat {
            number,
            seats: 1,
            deques,
            entry,
        }
    }

    /// Pushes a ticket behind all that its own deque has. Where no memory is found the ticket comes back.
    pub fn push(&mut self, ticket: Ticket) -> Result<(), (Ticket, NoMemory)>
        ensures ok { OnOk result (self.new ≡ put_by_owner ticket self.old) }
        ensures refused { IfErr result (λ e. (e.0 ≡ ticket) × (self.new ≡ self.old)) }
    {
        match put_at(&mut self.deques, self.number, ticket) {
            Ok(()) => Ok(()),
            Err(ticket) => Err((ticket, NoMemory)),
        }
    }

    // The first ticket of its own deque.
    fn take_own(&mut self) -> Option<Ticket>
        ensures some { IfSome result (λ t. TookOwn t self.old self.new) }
        ensures none { IfNone result ((self.new ≡ self.old) × OwnSawEmpty self.old) }
    {
        take_at(&mut self.deques, self.number)
    }

    // The first ticket of the injector.
    fn take_entry<R: Wait>(&mut self, rt: &R) -> Option<Ticket>
        ensures some { IfSome result (λ t. self.new ≡ record self.old { entry = took_entry (t ∷ []) self.old.entry }) }
        ensures none { IfNone result ((self.new ≡ self.old) × EntrySawEmpty self.old.entry) }
    {
        self.entry.take(rt)
    }

    // The first ticket of another deque.
    fn take_other<R: Wait>(&mut self, rt: &R) -> Option<Ticket>
        ensures some { IfSome result (λ t. Stole self.old.number t self.old.deques self.new.deques × (self.new ≡ record self.old { deques = self.new.deques })) }
        ensures none { IfNone result ((self.new ≡ self.old) × OthersSawEmpty self.old.number (length self.old.deques) self.old.deques) }
    {
        steal_from_others(rt, &mut self.deques, self.number)
    }

    /// Takes the first ticket of its own deque, or else of the injector, or else of another deque, by rising number. It may wait while another thread is in a call.
    pub fn next<R: Wait>(&mut self, rt: &R) -> Option<Ticket>
        ensures some { IfSome result (λ t. Took t self.old self.new) }
        ensures none { IfNone result ((self.new ≡ self.old) × EachSawEmpty self.old) }
    {
        if let Some(ticket) = self.take_own() {
            return Some(ticket);
        }
        if let Some(ticket) = self.take_entry(rt) {
            return Some(ticket);
        }
        self.take_other(rt)
    }

    /// Waits a little, longer each time, as `Idle::wait_at`. The wait of one scheduler ends where a ticket is put into the injector, and those of all where `wake_all` is called: a
    /// ticket that a scheduler pushes wakes nobody, since that scheduler takes it next.
    pub fn rest<R: Wait>(&self, rt: &R, idle: &Idle) {
        self.entry.rest(rt, self.number, idle);
    }

    /// Wakes each scheduler that waits, so that it looks whether the run is over.
    pub fn wake_all(&self) {
        self.entry.wake_all();
    }

    /// How many tickets it stole, which are those that it took of the deques of others. What the seats stole that it took in counts too. It counts no further
    /// than 2^64 - 1.
    pub fn stolen(&self) -> u64
        ensures { result ≡ counted (stolen_by self.now) }
    {
        let mut all = 0u64;
        'deques: for deque in &self.deques {
            all = all.saturating_add(deque.stolen());
        }
        all
    }

    /// Takes in another seat of the same queues. A ticket that lies in its deque stays there.
    pub fn join(&mut self, other: RunSeat)
        requires { AreOfOneQueue self.old other }
        ensures { self.new ≡ joined_seat self.old other }
    {
        let RunSeat {
            number: _,
            seats,
            deques,
            entry,
        } = other;
        join_each(&mut self.deques, deques);
        self.entry.join(entry);
        self.seats += seats;
    }

    /// Takes in an end of the same injector.
    pub fn join_entry(&mut self, other: EntrySeat)
        requires { other.injector ≡ self.old.entry.injector }
        ensures { self.new ≡ record self.old { entry = joined_entry self.old.entry other } }
    {
        self.entry.join(other);
    }

    /// Ends the queues, by a seat that all others were joined into. Of the tickets that all seats put, these are left: they were taken by none.
    pub fn close<R: Wait>(self, rt: &R)
        requires { HasEvery self }
        ensures { (left : List Ticket) × IsLeftOf self left }
    {
        let RunSeat {
            number: _,
            seats: _,
            deques,
            entry,
        } = self;
        close_each(deques);
        entry.close(rt);
    }
}

// Ends each deque.
fn close_each(mut deques: Vec<DequeEnd>)
    requires { All HasAll deques.items }
    ensures { (left : List Ticket) × AreLeftOf deques.items left }
{
    'deques: while let Some(deque) = deques.pop() {
        deque.close();
    }
}
