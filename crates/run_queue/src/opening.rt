// How the seats of the queues are made.
ghost use Rattle.std.specs.Prelude.{◌≡◌, ◌+◌, ◌-◌, ◌<◌, ◌≤◌, List, [], vec_len, length, map, replicate, Some, slice_get, IfOk, OnOk, All};
ghost use Rattle.crossbeam_deque.specs.Handles.{worker_deque, worker_flavor, worker_view};
ghost use Rattle.run_queue.specs.Account.{all_parts, first_hand, hand};
ghost use Rattle.run_queue.specs.Ends.{IsFreshOwner, AreGiven, owner_ids};
ghost use Rattle.run_queue.specs.Seats.{run_known, entry_known, guest_end, with_own, changed_at, AreSeats, AreFresh, RunKnown, DequeKnown, joined_entry};
ghost use Rattle.atomic_blocks.specs.Lent.{RowsId};

use crate::deque_end::{DequeEnd, Owner};
use crate::entry_seat::EntrySeat;
use crate::run_seat::RunSeat;
use no_memory::NoMemory;
use std::alloc::Global;

// How many tickets a deque has room for at first.
const ROOM: usize = 64;

fn owner(alloc: Global) -> Result<Owner, NoMemory>
    ensures { IfOk result (IsFreshOwner all_parts) }
{
    Ok(Owner::fifo_as(alloc, ROOM)?)
}

// The owners of new deques.
fn owners(alloc: Global, count: u32) -> Result<Vec<Owner>, NoMemory>
    ensures { IfOk result (λ all. (length all.items ≡ count) × All (IsFreshOwner all_parts) all.items) }
{
    let mut all = Vec::new(alloc);
    'owners: for _ in 0..count {
        all.push(owner(alloc)?)?;
    }
    Ok(all)
}

// An end of one deque, for the seat of this number, which is the next.
fn guest_at(
    alloc: Global,
    owners: &mut Vec<Owner>,
    at: usize,
    seat: u32,
    most: u32,
) -> Result<DequeEnd, NoMemory>
    requires owners { AreGiven seat at owners.old.items × (at < length owners.old.items) }
    requires few { (seat < most) × (most ≤ 16) }
    ensures end { IfOk result (λ e. slice_get (map (guest_end most) (owner_ids owners.old.items)) at ≡ Some e) }
    ensures owners { OnOk result (AreGiven seat (at + 1) owners.new.items × (owner_ids owners.new.items ≡ owner_ids owners.old.items)) }
{
    DequeEnd::guest(alloc, &mut owners[at], most)
}

// An end of each deque, for the seat of this number, which is the next.
fn row(
    alloc: Global,
    owners: &mut Vec<Owner>,
    seat: u32,
    most: u32,
) -> Result<Vec<DequeEnd>, NoMemory>
    requires owners { AreGiven seat 0 owners.old.items }
    requires few { (seat < most) × (most ≤ 16) }
    ensures row { IfOk result (λ row. row.items ≡ map (guest_end most) (owner_ids owners.old.items)) }
    ensures owners { OnOk result (AreGiven (seat + 1) 0 owners.new.items × (owner_ids owners.new.items ≡ owner_ids owners.old.items)) }
{
    let mut ends = Vec::new(alloc);
    'ends: for at in 0..owners.len() {
        ends.push(guest_at(alloc, owners, at, seat, most)?)?;
    }
    Ok(ends)
}

// An end of each deque, for each seat.
fn rows(alloc: Global, owners: &mut Vec<Owner>, most: u32) -> Result<Vec<Vec<DequeEnd>>, NoMemory>
    requires owners { AreGiven 0 0 owners.old.items }
    requires few { most ≤ 16 }
    ensures rows { IfOk result (λ rows. (vec_len rows ≡ most) × All (λ row. row.items ≡ map (guest_end most) (owner_ids owners.old.items)) rows.items) }
    ensures owners { OnOk result (AreGiven most 0 owners.new.items × (owner_ids owners.new.items ≡ owner_ids owners.old.items)) }
{
    let mut rows = Vec::new(alloc);
    'rows: for seat in 0..most {
        rows.push(row(alloc, owners, seat, most)?)?;
    }
    Ok(rows)
}

// The seat of this number gets its deque's owner.
fn own_at(row: &mut Vec<DequeEnd>, number: usize, owner: Owner)
    requires place { number < length row.old.items }
    requires deque { (k : DequeKnown) → slice_get row.old.items number ≡ Some k → (worker_deque owner).0 ≡ k.deque }
    requires owner { (worker_flavor owner ≡ 0) × (0 < (worker_view owner).parts) }
    ensures { row.new.items ≡ changed_at (with_own (worker_view owner)) number row.old.items }
{
    row[number].own(owner);
}

// The seat of this number, of its row, its deque's owner and its end of the injector.
fn seat(number: usize, mut row: Vec<DequeEnd>, owner: Owner, entry: EntrySeat, most: u32) -> RunSeat
    requires place { (number < most) × (0 < most) × (most ≤ 16) }
    requires row { (ids : List RowsId) × (row.items ≡ map (guest_end most) ids) × (length ids ≡ most) × (slice_get ids number ≡ Some (worker_deque owner).0) }
    requires owner { IsFreshOwner (all_parts - most) owner }
    ensures { result ≡ run_known number 1 (changed_at (with_own (hand (all_parts - most) [] [])) number row.items) entry }
{
    own_at(&mut row, number, owner);
    RunSeat::new(number, row, entry)
}

// The seats, by the numbers of the deques that they own.
fn seats(
    alloc: Global,
    owners: Vec<Owner>,
    mut rows: Vec<Vec<DequeEnd>>,
    first: &mut EntrySeat,
    most: u32,
) -> Result<Vec<RunSeat>, NoMemory>
    requires few { (0 < most) × (most ≤ 16) }
    requires owners { AreGiven most 0 owners.items × (length owners.items ≡ most) }
    requires rows { (vec_len rows ≡ most) × All (λ row. row.items ≡ map (guest_end most) (owner_ids owners.items)) rows.items }
    requires first { (first.old.hand ≡ hand first.old.hand.parts [] []) × (most < first.old.hand.parts) }
    ensures seats { IfOk result (λ all. (length all.items ≡ most) × AreFresh (owner_ids owners.items) first.old.injector all.items) }
    ensures first { OnOk result (first.new ≡ entry_known first.old.injector (hand (first.old.hand.parts - most) [] [])) }
{
    let mut all = Vec::new(alloc);
    'seats: for owner in owners {
        let Some(row) = rows.pop() else {
            unreachable!();
        };
        let entry = first.split()?;
        all.push(seat(all.len(), row, owner, entry, most))?;
    }
    Ok(all)
}

// Ends of the injector beside the first one.
fn split_ends(alloc: Global, first: &mut EntrySeat, count: u32) -> Result<Vec<EntrySeat>, NoMemory>
    requires { first.old.hand ≡ first_hand }
    ensures ends { IfOk result (λ all. all.items ≡ replicate count (entry_known first.old.injector (hand 1 [] []))) }
    ensures first { OnOk result (first.new ≡ entry_known first.old.injector (hand (all_parts - count) [] [])) }
{
    let mut all = Vec::new(alloc);
    'ends: for _ in 0..count {
        all.push(first.split()?)?;
    }
    Ok(all)
}

// The first seat gets the parts of the injector that are left.
fn give_rest(seats: &mut Vec<RunSeat>, first: EntrySeat)
    requires seats { (0 < length seats.old.items) × ((s : RunKnown) → slice_get seats.old.items 0 ≡ Some s → s.entry.injector ≡ first.injector) }
    ensures { seats.new.items ≡ changed_at (λ s. record s { entry = joined_entry s.entry first }) 0 seats.old.items }
{
    seats[0].join_entry(first);
}

/// The seats of new queues: one for each scheduler, which owns the deque of its number, and ends of the injector for so many other jobs.
pub fn run_queue(
    alloc: Global,
    schedulers: u32,
    entries: u32,
) -> Result<(Vec<RunSeat>, Vec<EntrySeat>), NoMemory>
    requires { (0 < schedulers) × (schedulers ≤ 16) }
    ensures { IfOk result (λ r. AreSeats schedulers entries r.0.items r.1.items) }
{
    let mut owners = owners(alloc, schedulers)?;
    let rows = rows(alloc, &mut owners, schedulers)?;
    let mut first = EntrySeat::open(alloc, schedulers)?;
    let others = split_ends(alloc, &mut first, entries)?;
    let mut all = seats(alloc, owners, rows, &mut first, schedulers)?;
    give_rest(&mut all, first);
    Ok((all, others))
}
