// The word, its rule and its seats.
ghost use Rattle.std.specs.Prelude.{◌≡◌, ◌+◌, ◌<◌, ◌≤◌, [], ◌++◌, ◌∷◌, length, IfOk, IsTrue};
ghost use Rattle.std.specs.Arc.{arc_value};
ghost use Rattle.atomic_table.specs.Seated.{TableId};
ghost use Rattle.port_words.specs.over.Over.{IsOver, Looks, Finishes, Stops, TellsOver, OverKnown, over_known, over_view, over_size, fresh_from, fresh_seat, fresh_seats, own_place, other_places, joined, spent, looked, finished_view, stopped_view, HasToFinish, HasNotStopped};

use crate::over::view::{OverSize, OverView};
use atomic_table::{Join, Play, Seat, Split, Table, TableRule};
use no_memory::NoMemory;
use std::alloc::{AllocError, Global};
use std::marker::Model;
use std::sync::{Arc, Wait};
use wake_ups::{Idle, Waiter};

type OverWord = Table<(), OverView, OverSize, Counting, Global>;

struct Counting;

impl TableRule<(), OverView, OverSize> for Counting {
    ghost holds = { IsOver };

    ghost first = { λ size. over_view size (fresh_from 0 size.seats) [] };
}

struct OverLooking;

impl Play<(), OverView> for OverLooking {
    ghost then = { λ _. Looks };
}

struct Finishing;

impl Play<(), OverView> for Finishing {
    ghost then = { λ _. Finishes };
}

struct Stopping;

impl Play<(), OverView> for Stopping {
    ghost then = { λ _. Stops };
}

struct OnePlace;

impl Split<OverView> for OnePlace {
    ghost left = { other_places };

    ghost right = { own_place };
}

struct AllPlaces;

impl Join<OverView> for AllPlaces {
    ghost both = { joined };

    ghost spent = { spent };
}

const ONE_STOP: u64 = 1 << 32;

/// A seat of the word: a clause sees which word it is, and what this seat knows. A seat that is dropped stays counted, as one that says nothing more.
#[derive(Drop)]
pub struct OverSeat {
    word: Arc<OverWord, Global>,
    seat: Seat<(), OverView>,
    counted: u32,
    waiter: Arc<Waiter, Global>,
}

impl Model for OverSeat {
    ghost Value = { OverKnown };

    ghost view = { λ s. over_known s.seat.table_id s.seat.me.0 };

    ghost invariant = { λ s. (s.seat.table_id ≡ (arc_value s.word).shared.table_id) × (s.seat.table_id.words ≡ 1) × (s.seat.me.1 ≡ []) × (0 < length s.seat.me.0.places) × (s.counted ≡ s.seat.me.0.size.counted) };
}

impl OverSeat {
    /// Says that this seat's port or process has finished. Answers the word before.
    pub fn finished(&mut self) -> u64
        requires { HasToFinish self.old.known.size.counted self.old.known.places }
        ensures seat { self.new ≡ over_known self.old.word (finished_view self.old.known result) }
        ensures word { TellsOver self.old.known result }
    {
        let found = self
            .word
            .shared
            .fetch_add::<Finishing>(&mut self.seat, 0, 1);
        self.waiter.wake();
        found
    }

    /// Stops the run. Answers the word before: the one seat that found less than 2^32 stopped it first.
    pub fn stop(&mut self) -> u64
        requires { HasNotStopped self.old.known.places }
        ensures seat { self.new ≡ over_known self.old.word (stopped_view self.old.known result) }
        ensures word { TellsOver self.old.known result }
    {
        let found = self
            .word
            .shared
            .fetch_add::<Stopping>(&mut self.seat, 0, ONE_STOP);
        self.waiter.wake();
        found
    }

    /// The word as it stands.
    pub fn look(&mut self) -> u64
        ensures seat { self.new ≡ over_known self.old.word (looked self.old.known result) }
        ensures word { TellsOver self.old.known result }
    {
        self.word.shared.load::<OverLooking>(&mut self.seat, 0)
    }

    /// Waits a little for the end of the run, longer each time, as `Idle::wait_at`. Where a seat finishes or stops the run, the wait ends. Of all seats of a word one
    /// thread alone may rest at a time: another one would take the wake-ups that are meant for it.
    pub fn rest<R: Wait>(&self, rt: &R, idle: &Idle) {
        idle.wait_at(rt, &self.waiter);
    }

    /// The number of counted seats with which the word was made.
    pub fn counted(&self) -> u32
        ensures { result ≡ self.now.known.size.counted }
    {
        self.counted
    }

    /// Takes in another seat of the same word. What its places mean together, the next look tells.
    pub fn join(&mut self, other: OverSeat)
        requires { other.word ≡ self.old.word }
        ensures { self.new ≡ over_known self.old.word (joined self.old.known other.known) }
    {
        let OverSeat {
            word,
            seat,
            counted: _,
            waiter,
        } = other;
        let shared = &self.word.shared;
        shared.join_seat::<AllPlaces>(&mut self.seat, seat);
        drop(word);
        drop(waiter);
    }
}

// The first place of the seats that are left becomes a seat of its own.
fn cut(
    word: &Arc<OverWord, Global>,
    rest: &mut Seat<(), OverView>,
    size: OverSize,
    waiter: &Arc<Waiter, Global>,
) -> Result<OverSeat, AllocError>
    requires seat { (rest.old.table_id ≡ (arc_value word.now).shared.table_id) × (rest.old.table_id.words ≡ 1) × (rest.old.me.1 ≡ []) }
    requires places { (0 < length rest.old.me.0.places) × (rest.old.me.0.size ≡ size) }
    ensures rest { (rest.new.table_id ≡ rest.old.table_id) × (rest.new.me.1 ≡ []) }
    ensures cut { IfOk result (λ s. (s ≡ over_known rest.old.table_id (own_place rest.old.me.0)) × (rest.new.me.0 ≡ other_places rest.old.me.0)) }
{
    let word = Arc::try_clone(word)?;
    let waiter = Arc::try_clone(waiter)?;
    let seat = word.shared.split_seat::<OnePlace>(rest);
    Ok(OverSeat {
        word,
        seat,
        counted: size.counted,
        waiter,
    })
}

/// The seats of a new word, the counted ones first. No seat has finished or stopped.
pub fn over_word(alloc: Global, counted: u32, others: u32) -> Result<Vec<OverSeat>, NoMemory>
    requires some { 0 < counted + others }
    requires few { counted + others ≤ 1024 }
    ensures { IfOk result (λ seats. (word : TableId) × (seats.items ≡ fresh_seats word (over_size counted (counted + others)) 0 (counted + others))) }
{
    let size = OverSize {
        counted,
        seats: counted + others,
    };
    let (table, mut rest) = OverWord::of_words(alloc, &[0], &size)?;
    let word = Arc::new(alloc, table)?;
    let waiter = Arc::new(alloc, Waiter::new())?;
    let mut seats = Vec::new(alloc);
    'numbers: for _ in 0..size.seats {
        seats.push(cut(&word, &mut rest, size, &waiter)?)?;
    }
    Ok(seats)
}
