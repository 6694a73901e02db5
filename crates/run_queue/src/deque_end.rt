// The ends of one deque that one seat has.
ghost use Rattle.std.specs.Prelude.{◌≡◌, ◌+◌, ◌<◌, ◌≤◌, List, [], ◌∷◌, length, vec_capacity, Some, None, IsSome, IfSome, IfNone, IfErr, IfOk, OnOk, MatchOption, ⊤, All, map};
ghost use Rattle.crossbeam_deque.specs.Handles.{view, IsPassOf, stealer_deque, worker_deque, worker_view, stealer_flavor, worker_flavor};
ghost use Rattle.run_queue.specs.Account.{after_put, after_take, WasEmpty};
ghost use Rattle.port_words.specs.declared.home.homes.Ticket.{Ticket};
ghost use Rattle.run_queue.specs.Ends.{IsOwnerOf, IsGuestOf, owner_view, guest_view, IsFreshOwner, parts_left};
ghost use Rattle.run_queue.specs.Seats.{counted, stolen_of, deque_known, put_own, took_own, stole, OwnerSawEmpty, GuestSawEmpty, the_own, joined_deque, guest_end, with_own, HasAll, IsRest, hands_of, IsSameAccount, KeepsShape};

use crate::account::{EachOnce, Left, OnePart, PutsTicket, QueueHand, TakesTicket, Together};
use crossbeam_deque::{Pass, Steal, Stealer, Worker};
use no_memory::NoMemory;
use port_words::home::Ticket;
use std::alloc::Global;
use std::marker::Model;
use std::sync::Wait;

pub(crate) type Owner = Worker<Ticket, Global, QueueHand, EachOnce>;

pub(crate) type Thief = Stealer<Ticket, Global, QueueHand, EachOnce>;

pub(crate) type Guest = Pass<Ticket, QueueHand>;

/// The deque's owner, where this seat has it, a stealer, passes of the deque, for `most` of which there is memory, and how many tickets they took.
#[derive(Drop)]
pub(crate) struct DequeEnd {
    owner: Option<Owner>,
    thief: Thief,
    guests: Vec<Guest>,
    most: u32,
    stolen: u64,
}

impl Model for DequeEnd {
    ghost use Rattle.std.specs.Prelude.{◌≡◌, ◌≤◌, map, All, vec_capacity, MatchOption, ⊤};
    ghost use Rattle.crossbeam_deque.specs.Handles.{stealer_deque, stealer_flavor};
    ghost use Rattle.run_queue.specs.Ends.{IsOwnerOf, IsGuestOf, owner_view, guest_view};
    ghost use Rattle.run_queue.specs.Seats.{DequeKnown, deque_known, counted, stolen_in};

    ghost Value = { DequeKnown };

    ghost view = { λ e. deque_known (stealer_deque e.thief).0 (owner_view e.owner) (map guest_view e.guests.items) e.most };

    ghost invariant = { λ e. MatchOption e.owner ⊤ (IsOwnerOf (stealer_deque e.thief))
        × (stealer_flavor e.thief ≡ 0)
        × All (IsGuestOf (stealer_deque e.thief)) e.guests.items
        × (e.most ≤ vec_capacity e.guests)
        × (e.stolen ≡ counted (stolen_in (map guest_view e.guests.items))) };
}

fn put_by(owner: &mut Owner, ticket: Ticket) -> Result<(), Ticket>
    requires { 0 < (worker_view owner.old).parts }
    ensures same { (worker_deque owner.new ≡ worker_deque owner.old) × (worker_flavor owner.new ≡ worker_flavor owner.old) }
    ensures ok { OnOk result (worker_view owner.new ≡ after_put (ticket ∷ []) (worker_view owner.old)) }
    ensures refused { IfErr result (λ t. (t ≡ ticket) × (worker_view owner.new ≡ worker_view owner.old)) }
{
    owner.push_as::<PutsTicket>(ticket)
}

fn take_by(owner: &mut Owner) -> Option<Ticket>
    requires { (worker_flavor owner.old ≡ 0) × (0 < (worker_view owner.old).parts) }
    ensures same { (worker_deque owner.new ≡ worker_deque owner.old) × (worker_flavor owner.new ≡ worker_flavor owner.old) }
    ensures some { IfSome result (λ t. worker_view owner.new ≡ after_take (t ∷ []) (worker_view owner.old)) }
    ensures none { IfNone result ((worker_view owner.new ≡ worker_view owner.old) × WasEmpty (worker_view owner.old)) }
{
    owner.pop_as::<TakesTicket>()
}

// Takes the first ticket, or finds the deque empty. It tries again where another thread was before it.
fn steal_by<R: Wait>(rt: &R, thief: &Thief, guest: &mut Guest) -> Option<Ticket>
    requires { (stealer_flavor thief.now ≡ 0) × IsGuestOf (stealer_deque thief.now) guest.old }
    ensures same { IsPassOf (stealer_deque thief.now) guest.new }
    ensures some { IfSome result (λ t. view guest.new ≡ after_take (t ∷ []) (view guest.old)) }
    ensures none { IfNone result ((view guest.new ≡ view guest.old) × WasEmpty (view guest.old)) }
{
    'tries: for _ in rt.forever() {
        match thief.steal_as::<TakesTicket>(guest) {
            Steal::Success(ticket) => return Some(ticket),
            Steal::Empty => return None,
            Steal::Retry => {}
        }
    }
    unreachable!()
}

impl DequeEnd {
    /// The owner pushes a ticket, or gives it back.
    pub(crate) fn put(&mut self, ticket: Ticket) -> Result<(), Ticket>
        requires { IsSome self.old.own }
        ensures same { KeepsShape self.old self.new }
        ensures ok { OnOk result (self.new ≡ put_own (ticket ∷ []) self.old) }
        ensures refused { IfErr result (λ t. (t ≡ ticket) × (self.new ≡ self.old)) }
    {
        match &mut self.owner {
            Some(owner) => put_by(owner, ticket),
            None => unreachable!(),
        }
    }

    /// The owner takes the first ticket.
    pub(crate) fn take(&mut self) -> Option<Ticket>
        requires { IsSome self.old.own }
        ensures same { KeepsShape self.old self.new }
        ensures some { IfSome result (λ t. self.new ≡ took_own (t ∷ []) self.old) }
        ensures none { IfNone result ((self.new ≡ self.old) × OwnerSawEmpty self.old) }
    {
        match &mut self.owner {
            Some(owner) => take_by(owner),
            None => unreachable!(),
        }
    }

    /// A guest takes the first ticket.
    pub(crate) fn steal<R: Wait>(&mut self, rt: &R) -> Option<Ticket>
        requires { 0 < length self.old.guests }
        ensures same { KeepsShape self.old self.new }
        ensures some { IfSome result (λ t. self.new ≡ stole (t ∷ []) self.old) }
        ensures none { IfNone result ((self.new ≡ self.old) × GuestSawEmpty self.old) }
    {
        let ticket = steal_by(rt, &self.thief, &mut self.guests[0])?;
        self.stolen = self.stolen.saturating_add(1);
        Some(ticket)
    }

    /// How many tickets its guests took.
    pub(crate) fn stolen(&self) -> u64
        ensures { result ≡ counted (stolen_of self.now) }
    {
        self.stolen
    }

    /// Takes in the ends of the same deque that another seat has.
    #[tactic(auto, using(crate::proofs::EndLemmas::stolen_joined))]
    pub(crate) fn join(&mut self, other: DequeEnd)
        requires deque { other.deque ≡ self.old.deque }
        requires room { length self.old.guests + length other.guests ≤ self.old.most }
        ensures { self.new ≡ joined_deque self.old other }
    {
        let DequeEnd {
            owner,
            thief,
            mut guests,
            most: _,
            stolen,
        } = other;
        drop(thief);
        if self.guests.append(&mut guests).is_err() {
            unreachable!();
        }
        drop(guests);
        self.stolen = self.stolen.saturating_add(stolen);
        self.join_owner(owner);
    }

    // Takes in the owner that another seat has, where it has it.
    fn join_owner(&mut self, owner: Option<Owner>)
        requires { MatchOption owner ⊤ (λ w. ((worker_deque w).0 ≡ self.old.deque) × (worker_flavor w ≡ 0) × (0 < (worker_view w).parts)) }
        ensures { self.new ≡ record self.old { own = the_own self.old.own (owner_view owner) } }
    {
        if self.owner.is_none() {
            self.owner = owner;
        }
    }

    // The first end of a deque whose owner others have, with one pass.
    pub(crate) fn guest(alloc: Global, owner: &mut Owner, most: u32) -> Result<DequeEnd, NoMemory>
        requires owner { IsFreshOwner (parts_left owner.old + 1) owner.old × (0 < parts_left owner.old) }
        requires room { 0 < most }
        ensures end { IfOk result (λ e. e ≡ guest_end most (worker_deque owner.old).0) }
        ensures owner { OnOk result ((worker_deque owner.new ≡ worker_deque owner.old) × IsFreshOwner (parts_left owner.old) owner.new) }
    {
        let mut guests = Vec::with_capacity(alloc, most as usize)?;
        let thief = owner.stealer()?;
        guests.push(owner.another::<OnePart>())?;
        Ok(DequeEnd {
            owner: None,
            thief,
            guests,
            most,
            stolen: 0,
        })
    }

    // Takes in the deque's owner.
    pub(crate) fn own(&mut self, owner: Owner)
        requires deque { (worker_deque owner).0 ≡ self.old.deque }
        requires owner { (worker_flavor owner ≡ 0) × (0 < (worker_view owner).parts) }
        ensures { self.new ≡ with_own (worker_view owner) self.old }
    {
        self.owner = Some(owner);
    }

    /// Ends the deque, by the one seat that has every end of it, and answers how many tickets are left in it.
    pub(crate) fn close(self) -> usize
        requires { HasAll self }
        ensures { (tickets : List Ticket) × (length tickets ≡ result) × IsRest (hands_of self) tickets }
    {
        let DequeEnd {
            owner,
            thief,
            guests,
            most: _,
            stolen: _,
        } = self;
        drop(thief);
        match owner {
            Some(owner) => absorb_all(owner, guests).len_as::<Left>(),
            None => unreachable!(),
        }
    }
}

// The owner takes in all that the passes know.
fn absorb_all(mut owner: Owner, mut guests: Vec<Guest>) -> Owner
    requires { All (IsGuestOf (worker_deque owner)) guests.items }
    ensures { IsSameAccount (worker_view owner ∷ map guest_view guests.items) (worker_view result ∷ []) }
{
    'guests: while let Some(guest) = guests.pop() {
        owner.absorb::<Together>(guest);
    }
    owner
}
