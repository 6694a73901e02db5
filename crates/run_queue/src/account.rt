//! The rule under which a queue of tickets is used, and its kinds of step.
use crossbeam_deque::protocol::{Join, Lesson, Outcome, Protocol, Split};
use port_words::home::Ticket;
use std::collections::LinkedList;

/// What one thread knows of one queue: its parts of the right to know all of it, and the tickets that it put and took. No value of it is made.
pub struct QueueHand {
    pub parts: u64,
    pub put: LinkedList<Ticket>,
    pub taken: LinkedList<Ticket>,
}

/// The rule of a queue, which holds between any two steps. `specs/Account.antt` has it.
pub struct EachOnce;

impl Protocol<Ticket, QueueHand> for EachOnce {
    ghost use Rattle.run_queue.specs.Account.{IsQueue, first_hand};

    ghost holds = { IsQueue };

    ghost first = { first_hand };

    ghost guest = { first_hand };
}

/// A thread puts a ticket.
pub struct PutsTicket;

impl Outcome<Ticket, QueueHand> for PutsTicket {
    ghost use Rattle.std.specs.Prelude.{◌≡◌};
    ghost use Rattle.run_queue.specs.Account.{after_put};

    ghost then = { λ v tickets w. w ≡ after_put tickets v };
}

/// A thread takes a ticket, or finds the queue empty.
pub struct TakesTicket;

impl Outcome<Ticket, QueueHand> for TakesTicket {
    ghost use Rattle.std.specs.Prelude.{◌≡◌};
    ghost use Rattle.run_queue.specs.Account.{after_take, WasEmpty};

    ghost then = { λ v tickets w. w ≡ after_take tickets v };

    ghost empty = { WasEmpty };
}

/// One part is split off.
pub struct OnePart;

impl Split<QueueHand> for OnePart {
    ghost use Rattle.run_queue.specs.Account.{other_parts, one_part};

    ghost left = { other_parts };

    ghost right = { one_part };
}

/// What two threads know is put together.
pub struct Together;

impl Join<QueueHand> for Together {
    ghost use Rattle.run_queue.specs.Account.{together, spent_hand};

    ghost both = { together };

    ghost spent = { spent_hand };
}

/// The thread that has all parts learns what is left in the queue.
pub struct Left;

impl Lesson<Ticket, QueueHand> for Left {
    ghost use Rattle.run_queue.specs.Account.{IsLeft};

    ghost fact = { IsLeft };
}
