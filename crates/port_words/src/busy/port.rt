// The port's seat, and the maker of a table.
ghost use Rattle.std.specs.Prelude.{◌≡◌, ◌≢◌, ℕ, ◌+◌, ◌-◌, ◌*◌, ◌/◌, ◌%◌, ◌^◌, ◌<◌, ◌≤◌, true, false, List, [], ◌++◌, ◌∷◌, length, IfOk, IfErr};
ghost use Rattle.std.specs.Arc.{arc_value};
ghost use Rattle.port_words.specs.declared.busy.view.StatMark.{StatMark};
ghost use Rattle.port_words.specs.declared.busy.view.StatMark.TheVariants.{Busy, Free, Closed};
ghost use Rattle.port_words.specs.busy.Stat.{stat_of, marked_busy, marked_closed, mark_of, EachRises};
ghost use Rattle.port_words.specs.busy.Queue.{taken};
ghost use Rattle.port_words.specs.busy.Steps.{TellsQueue, own, port_heard, marked, other_senders, joined, removing};
ghost use Rattle.port_words.specs.busy.Known.{PortKnown, port_known, send_known, name_of, with_sender, TakesAway, setup_of, InRange, AreSeatsOf};

use crate::busy::send::{SendSeat, Weight};
use crate::busy::table::{
    Both, BusyWordSeat, BusyWords, Learning, MSGQ, MarkingBusy, MarkingClosed, MarkingFree,
    OneSender, PortHearing, Removing, STAT, SharedBusyWords,
};
use crate::busy::view::{BusySetup, QueueLimits};
use crate::busy::words::after_removal;
use no_memory::NoMemory;
use std::alloc::{AllocError, Global};
use std::marker::Model;
use std::sync::{Arc, Wait};

/// The port's seat: a clause sees its table and what it knows. Only the port writes STAT.
#[derive(Drop)]
pub struct PortSeat {
    table: Arc<BusyWords, Global>,
    setup: BusySetup,
    stat: u64,
    seat: BusyWordSeat,
}

impl Model for PortSeat {
    ghost Value = { PortKnown };

    ghost view = { λ s. port_known s.seat.table_id s.seat.me.0 };

    ghost invariant = { λ s. (s.seat.table_id ≡ (arc_value s.table).shared.table_id) × (s.seat.table_id.words ≡ 2) × ((arc_value s.table).shared.key ≡ s.setup) × (s.seat.me.0.setup ≡ s.setup) × (s.seat.me.0.port ≡ true) × (s.seat.me.0.weights ≡ []) × (s.seat.me.1 ≡ []) × (s.stat ≡ stat_of s.seat.me.0.marks) };
}

impl PortSeat {
    /// MSGQ as it stands: the period times 2^40, plus the bytes.
    pub fn look_msgq(&mut self) -> u64
        ensures seat { self.new ≡ port_known self.old.table (port_heard self.old.known (result ∷ [])) }
        ensures queue { TellsQueue self.new.known result }
        ensures stats { EachRises self.new.known.marks self.new.known.senders }
    {
        self.table.shared.load::<PortHearing>(&mut self.seat, MSGQ)
    }

    fn mark_busy(&mut self) -> u64
        requires changes { marked_busy self.old.known.marks ≡ false }
        requires few { length self.old.known.marks < 2 ^ 60 }
        ensures seat { self.new ≡ port_known self.old.table (marked self.old.known Busy) }
        ensures word { result ≡ stat_of self.new.known.marks }
    {
        let stat = self.stat + 5;
        self.table
            .shared
            .swap::<MarkingBusy>(&mut self.seat, STAT, stat);
        self.stat = stat;
        stat
    }

    fn mark_free(&mut self) -> u64
        requires changes { marked_busy self.old.known.marks ≡ true }
        requires few { length self.old.known.marks < 2 ^ 60 }
        ensures seat { self.new ≡ port_known self.old.table (marked self.old.known Free) }
        ensures word { result ≡ stat_of self.new.known.marks }
    {
        let stat = self.stat + 3;
        self.table
            .shared
            .swap::<MarkingFree>(&mut self.seat, STAT, stat);
        self.stat = stat;
        stat
    }

    /// Marks the port as busy, or as free again. Answers the STAT word that the mark left.
    pub fn mark(&mut self, busy: bool) -> u64
        requires changes { marked_busy self.old.known.marks ≢ busy }
        requires few { length self.old.known.marks < 2 ^ 60 }
        ensures seat { self.new ≡ port_known self.old.table (marked self.old.known (mark_of busy)) }
        ensures word { result ≡ stat_of self.new.known.marks }
    {
        if busy {
            self.mark_busy()
        } else {
            self.mark_free()
        }
    }

    /// Marks the port as closed. Answers the STAT word that the mark left.
    pub fn mark_closed(&mut self) -> u64
        requires { length self.old.known.marks < 2 ^ 60 }
        ensures seat { self.new ≡ port_known self.old.table (marked self.old.known Closed) }
        ensures word { result ≡ stat_of self.new.known.marks }
    {
        let stat = after_close(self.stat);
        self.table
            .shared
            .swap::<MarkingClosed>(&mut self.seat, STAT, stat);
        self.stat = stat;
        stat
    }

    /// Takes the bytes of a handled command away, and answers the word left.
    pub fn removed<R: Wait>(&mut self, rt: &R, weight: Weight) -> u64
        requires { weight.table ≡ self.old.table }
        ensures { TakesAway self.old self.new weight.name result }
    {
        remove(rt, &self.table.shared, &mut self.seat, self.setup, weight)
    }

    /// Takes a sender's seat in at the end of a run, and learns what its sender saw.
    pub fn join(&mut self, seat: SendSeat)
        requires { seat.table ≡ self.old.table }
        ensures seat { self.new ≡ port_known self.old.table (with_sender self.old.known seat.sender) }
        ensures stats { EachRises self.old.known.marks self.new.known.senders }
        ensures queue { (word : ℕ) × TellsQueue self.new.known word }
    {
        let SendSeat {
            table,
            setup: _,
            seat,
        } = seat;
        take_in(&self.table.shared, &mut self.seat, seat);
        drop(table);
    }
}

// STAT after a closed mark.
fn after_close(stat: u64) -> u64
    requires { stat < 2 ^ 63 }
    ensures { result ≡ stat + 6 - (stat / 2 % 2) * 2 }
{
    if stat / 2 % 2 == 1 {
        stat + 4
    } else {
        stat + 6
    }
}

// A sender's seat comes into the port's, which then learns.
fn take_in(shared: &SharedBusyWords, seat: &mut BusyWordSeat, other: BusyWordSeat)
    requires table { (seat.old.table_id ≡ shared.now.table_id) × (seat.old.table_id.words ≡ 2) × (seat.old.me.0.setup ≡ shared.now.key) }
    requires port { (seat.old.me.0.port ≡ true) × (seat.old.me.1 ≡ []) }
    requires other { (other.table_id ≡ seat.old.table_id) × (other.me.1 ≡ []) × (other.me.0.removed ≡ []) }
    ensures same { (seat.new.table_id ≡ seat.old.table_id) × (seat.new.id ≡ seat.old.id) }
    ensures view { seat.new.me ≡ (joined seat.old.me.0 other.me.0, []) }
    ensures learns { ((word : ℕ) × TellsQueue (joined seat.old.me.0 other.me.0) word) × EachRises seat.old.me.0.marks (joined seat.old.me.0 other.me.0).senders }
{
    shared.join_seat::<Both>(seat, other);
    shared.load::<Learning>(seat, MSGQ);
}

// Takes the seat's one weight away from this word, or answers the word found.
fn try_remove(
    shared: &SharedBusyWords,
    seat: &mut BusyWordSeat,
    setup: BusySetup,
    word: u64,
    size: u32,
) -> Result<u64, u64>
    requires table { (seat.old.table_id ≡ shared.now.table_id) × (seat.old.table_id.words ≡ 2) × (shared.now.key ≡ setup) }
    requires port { (seat.old.me.0.setup ≡ setup) × (seat.old.me.0.port ≡ true) × (seat.old.me.1 ≡ []) }
    requires weight { (seat.old.me.0.weights ≡ name_of seat.old.me.0.weights ∷ []) × (size ≡ (name_of seat.old.me.0.weights).size) }
    requires word { TellsQueue seat.old.me.0 word }
    ensures same { (seat.new.table_id ≡ seat.old.table_id) × (seat.new.id ≡ seat.old.id) }
    ensures ok { IfOk result (λ left. (left ≡ taken setup.limits word size) × (seat.new.me ≡ (removing seat.old.me.0 left, [])) × TellsQueue (removing seat.old.me.0 left) left) }
    ensures err { IfErr result (λ n. (n ≢ word) × (seat.new.me ≡ (port_heard seat.old.me.0 (n ∷ []), [])) × TellsQueue (port_heard seat.old.me.0 (n ∷ [])) n) }
{
    let left = after_removal(setup.limits, word, size);
    let found = shared.compare_exchange::<Removing>(seat, MSGQ, word, left);
    if found == word { Ok(left) } else { Err(found) }
}

fn remove<R: Wait>(
    rt: &R,
    shared: &SharedBusyWords,
    seat: &mut BusyWordSeat,
    setup: BusySetup,
    weight: Weight,
) -> u64
    requires table { (seat.old.table_id ≡ shared.now.table_id) × (seat.old.table_id.words ≡ 2) × (shared.now.key ≡ setup) }
    requires port { (seat.old.me.0.setup ≡ setup) × (seat.old.me.0.port ≡ true) × (seat.old.me.0.weights ≡ []) × (seat.old.me.1 ≡ []) }
    requires weight { weight.table ≡ seat.old.table_id }
    ensures same { (seat.new.table_id ≡ seat.old.table_id) × (seat.new.id ≡ seat.old.id) × (seat.new.me.1 ≡ []) }
    ensures taken { TakesAway (port_known seat.old.table_id seat.old.me.0) (port_known seat.new.table_id seat.new.me.0) weight.name result }
{
    let size = weight.join_into(shared, seat);
    let mut word = shared.load::<PortHearing>(seat, MSGQ);
    'tries: for _ in rt.forever() {
        match try_remove(shared, seat, setup, word, size) {
            Ok(left) => return left,
            Err(found) => word = found,
        }
    }
    unreachable!()
}

// The first sender that is left gets a seat of its own.
fn cut(
    table: &Arc<BusyWords, Global>,
    rest: &mut BusyWordSeat,
    setup: BusySetup,
) -> Result<SendSeat, AllocError>
    requires table { (rest.old.table_id ≡ (arc_value table.now).shared.table_id) × (rest.old.table_id.words ≡ 2) × ((arc_value table.now).shared.key ≡ setup) }
    requires senders { (0 < length rest.old.me.0.senders) × (rest.old.me.0.setup ≡ setup) × (rest.old.me.1 ≡ []) }
    ensures rest { (rest.new.table_id ≡ rest.old.table_id) × (rest.new.me.1 ≡ []) }
    ensures cut { IfOk result (λ s. (s ≡ send_known rest.old.table_id setup (own rest.old.me.0)) × (rest.new.me.0 ≡ other_senders rest.old.me.0)) }
{
    let table = Arc::try_clone(table)?;
    let seat = table.shared.split_seat::<OneSender>(rest);
    Ok(SendSeat { table, setup, seat })
}

/// A new table, with both words 0: the port's seat, and one for each sender. With `on` false no limit holds, and the message queue is never busy.
pub fn busy_table(
    alloc: Global,
    on: bool,
    low: u32,
    high: u32,
    senders: u32,
) -> Result<(PortSeat, Vec<SendSeat>), NoMemory>
    requires senders { (0 < senders) × (senders ≤ 32) }
    requires limits { InRange on low high }
    ensures { IfOk result (λ r. AreSeatsOf (setup_of (record { on = on; low = low; high = high }) senders) r.0 r.1.items) }
{
    let setup = BusySetup {
        limits: QueueLimits { on, low, high },
        senders,
    };
    let (table, mut rest) = BusyWords::of_words(alloc, &[0, 0], &setup)?;
    let table = Arc::new(alloc, table)?;
    let mut seats = Vec::new(alloc);
    'numbers: for _ in 0..setup.senders {
        seats.push(cut(&table, &mut rest, setup)?)?;
    }
    let port = PortSeat {
        table,
        setup,
        stat: 0,
        seat: rest,
    };
    Ok((port, seats))
}
