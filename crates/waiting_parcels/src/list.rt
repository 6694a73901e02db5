ghost use Rattle.std.specs.Prelude.{◌≡◌, ◌<◌, ◌≤◌, ◌↔◌, false, [], ◌∷◌, ◌++◌, length, IsTrue, IsOk, IsSome, IfOk, IfSome, IfNone, OnOk};
ghost use Rattle.waiting_parcels.specs.Waiting.{has_sender, GoesFirst, NoneGoes};

use crate::arrival::Arrival;
use crate::queues::{empty_queues, first_to_go, is_from, last_may_go, put_behind, take_from};
use crate::{Item, NoMemory, Parcel};
use std::alloc::Global;
use std::collections::VecDeque;
use std::marker::Model;

/// The most tasks that a list takes in all its time, 2^63.
const MOST: u64 = 0x8000_0000_0000_0000;

/// Tasks that a port took and didn't handle yet, in the order in which they came to wait.
///
/// A sender is a process, by its number from 0. `reserve` makes a place for the next task, whoever sends it, and
/// `push` uses it up. `take_first` looks at the first task of each sender that waits, and at no other; the other
/// calls look at no task of a queue, and `reserve` moves tasks only where the queue of one sender has to grow.
pub struct WaitingList {
    // A queue for each sender.
    queues: Vec<VecDeque<Arrival>>,
    // The senders whose queues aren't empty.
    waiting: Vec<u32>,
    // How many tasks are in the queues.
    queued: usize,
    // The stamp of the next task that comes into a queue.
    next: u64,
    // The task that came last, until `reserve` puts it into its queue.
    newest: Option<Item<Parcel>>,
}

// Its parts go by one call, which is proved once and not in each function that may let one go.
impl Drop for WaitingList {
    fn drop(self) {
        let Self {
            queues: _,
            waiting: _,
            queued: _,
            next: _,
            newest: _,
        } = self;
    }
}

impl Model for WaitingList {
    ghost use Rattle.std.specs.Prelude.{◌++◌, vec_len, option_to_list, is_none, if◌then◌else◌};
    ghost use Rattle.waiting_parcels.specs.Waiting.{Waiting};

    ghost Value = { Waiting };

    ghost use Rattle.waiting_parcels.specs.Queues.{lists, arrivals, in_order, IsKept};

    ghost view = { λ l. record {
      items = in_order l.next (arrivals (lists l.queues.items)) ++ option_to_list l.newest;
      senders = vec_len l.queues;
      room = if is_none l.newest then 1 else 0;
    } };

    ghost invariant = { λ l. IsKept (lists l.queues.items) l.waiting.items l.queued l.next l.newest };
}

impl WaitingList {
    /// A list in which nothing waits, for senders 0 to `senders - 1`.
    pub fn new(alloc: Global, senders: u32) -> Result<WaitingList, NoMemory>
        ensures items { IfOk result (λ list. list.items ≡ []) }
        ensures senders { IfOk result (λ list. list.senders ≡ senders) }
        ensures room { IfOk result (λ list. 0 < list.room) }
    {
        Ok(WaitingList {
            queues: empty_queues(alloc, senders)?,
            waiting: Vec::new(alloc),
            queued: 0,
            next: 0,
            newest: None,
        })
    }

    /// Nothing waits.
    #[inline(always)]
    pub fn is_empty(&self) -> bool
        ensures { IsTrue result ↔ (self.now.items ≡ []) }
    {
        self.queued == 0 && self.newest.is_none()
    }

    /// How many tasks wait.
    #[inline(always)]
    pub fn len(&self) -> usize
        ensures { result ≡ length self.now.items }
    {
        self.queued + usize::from(self.newest.is_some())
    }

    /// A task of this sender waits.
    #[inline(always)]
    pub fn has_sender(&self, sender: u32) -> bool
        requires { sender < self.now.senders }
        ensures { result ≡ has_sender sender self.now.items }
    {
        !self.queues[sender as usize].is_empty() || is_from(&self.newest, sender)
    }

    /// Makes a place for one task more, whoever sends it, where there is none. It is refused where memory is
    /// wanting, and where 2^63 tasks have come in all.
    #[inline(always)]
    pub fn reserve(&mut self) -> Result<(), NoMemory>
        ensures room { OnOk result (0 < self.new.room) }
        ensures there { 0 < self.old.room → IsOk result }
        ensures items { self.new.items ≡ self.old.items }
        ensures senders { self.new.senders ≡ self.old.senders }
    {
        let Some(item) = self.newest.take() else {
            return Ok(());
        };
        if self.next == MOST {
            self.newest = Some(item);
            return Err(NoMemory);
        }
        let arrival = Arrival {
            stamp: self.next,
            item,
        };
        match put_behind(&mut self.queues, &mut self.waiting, arrival) {
            Ok(()) => {
                self.queued += 1;
                self.next += 1;
                Ok(())
            }
            Err(refused) => {
                self.newest = Some(refused.item);
                Err(NoMemory)
            }
        }
    }

    /// Adds a task at the end. It takes no memory.
    #[inline(always)]
    pub fn push(&mut self, item: Item<Parcel>)
        requires room { 0 < self.old.room }
        requires known { item.sender < self.old.senders }
        ensures items { self.new.items ≡ self.old.items ++ item ∷ [] }
        ensures senders { self.new.senders ≡ self.old.senders }
    {
        self.newest = Some(item);
    }

    /// Takes the first task that may go: no earlier one has its sender, and it isn't a command, or is a forced one, or
    /// the port isn't busy. It takes no memory. Where the port isn't busy, that is the first task of the list.
    #[inline(always)]
    pub fn take_first(&mut self, busy: bool) -> Option<Item<Parcel>>
        ensures some { IfSome result (λ x. GoesFirst busy self.old.items x self.new.items) }
        ensures none { IfNone result (NoneGoes busy self.old.items) }
        ensures same { IfNone result (self.new ≡ self.old) }
        ensures senders { self.new.senders ≡ self.old.senders }
        ensures room { self.old.room ≤ self.new.room }
        ensures head { IfSome result (λ x. busy ≡ false → self.old.items ≡ x ∷ self.new.items) }
        ensures free { busy ≡ false → 0 < length self.old.items → IsSome result }
    {
        if let Some(head) = first_to_go(&self.queues, &self.waiting, busy) {
            let arrival = take_from(&mut self.queues, &mut self.waiting, head.place);
            self.queued -= 1;
            return Some(arrival.item);
        }
        let item = self.newest.take()?;
        if last_may_go(&self.queues, &item, busy) {
            return Some(item);
        }
        self.newest = Some(item);
        None
    }
}
