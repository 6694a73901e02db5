ghost use Rattle.std.specs.Prelude.{◌≡◌, ℕ, ◌+◌, ◌<◌, true, [], Contains, IfSome, IsSomeAnd, OnOk, length, vec_len, slice_index_or};
ghost use Rattle.task_queue.specs.Items.{of, IsNumbered};
ghost use Rattle.task_queue.specs.Ends.{ended_of, TookAll};

use crate::checks::is_right;
use std::alloc::{AllocError, Global};
use std::snapshot::Snapshot;
use std::sync::Wait;
use std::sync::atomic::{AtomicU64, Ordering};
use std::thread;
use std::thread::{Threads, join};
use task_queue::{Fits, Item, SendEnd, TakeEnd, lane};

// Every number fits, in a lane with no key.
#[derive(Clone, Copy, Drop, PartialEq)]
struct LaneNumber(u64);

impl Fits for LaneNumber {
    type Key = ();

    ghost fits = { λ key number value. Unit {0} };
}

// A place in a list whose length is the lane's key.
#[derive(Drop)]
struct Place(usize);

impl Fits for Place {
    type Key = usize;

    ghost fits = { λ len number place. place.0 < len };
}

// What one thread puts.
#[derive(Drop)]
struct PutJob {
    end: SendEnd<LaneNumber>,
    values: Vec<LaneNumber>,
    ghost fresh: { end.sent ≡ [] },
}

// Puts all values, and says that it is done.
fn put_all<R: Wait>(rt: &R, job: PutJob, done: &AtomicU64) -> Option<SendEnd<LaneNumber>>
    ensures { IfSome result (λ end. end ≡ record job.end { sent = job.values.items }) }
{
    let PutJob { mut end, values } = job;
    let put = put_each(rt, &mut end, &values);
    done.fetch_add(1, Ordering::SeqCst);
    put.then_some(end)
}

fn put_each<R: Wait>(rt: &R, end: &mut SendEnd<LaneNumber>, values: &[LaneNumber]) -> bool
    requires { end.old.sent ≡ [] }
    ensures { result ≡ true → end.new ≡ record end.old { sent = values.now } }
{
    for value in values {
        if end.put(rt, *value).is_err() {
            return false;
        }
    }
    true
}

// Takes until so many senders are done and the lane is empty.
fn gather<R: Wait>(
    rt: &R,
    end: &mut TakeEnd<LaneNumber>,
    items: &mut Vec<Item<LaneNumber>>,
    done: &AtomicU64,
    senders: u64,
) -> Result<(), AllocError>
    requires { items.old.items ≡ end.old.taken }
    ensures same { end.new ≡ record end.old { taken = end.new.taken } }
    ensures kept { OnOk result (items.new.items ≡ end.new.taken) }
    ensures all { OnOk result (TookAll end.new) }
    ensures numbered { OnOk result (IsNumbered end.new.taken) }
{
    for _ in rt.forever() {
        let over = done.load(Ordering::SeqCst) >= senders;
        items.reserve(1)?;
        match end.take(rt) {
            Some(item) => items.push_reserved(item),
            None if over => return Ok(()),
            None => thread::yield_now(),
        }
    }
    unreachable!()
}

// What was taken, beside the end that took it.
#[derive(Drop)]
struct Gathered {
    end: TakeEnd<LaneNumber>,
    items: Vec<Item<LaneNumber>>,
    ghost kept: { items.items ≡ end.taken },
}

fn take_until<R: Wait>(
    rt: &R,
    gathered: Gathered,
    done: &AtomicU64,
    senders: u64,
) -> Option<Gathered>
    ensures same { IfSome result (λ r. r.end ≡ record gathered.end { taken = r.end.taken }) }
    ensures all { IfSome result (λ r. TookAll r.end) }
    ensures numbered { IfSome result (λ r. IsNumbered r.end.taken) }
{
    let Gathered { mut end, mut items } = gathered;
    let Ok(()) = gather(rt, &mut end, &mut items, done, senders) else {
        return None;
    };
    Some(Gathered { end, items })
}

// Two threads put, and a third takes.
fn exchange<R: Threads + Wait + Sync>(
    rt: &R,
    done: &AtomicU64,
    first: PutJob,
    second: PutJob,
    gathered: Gathered,
) -> (
    Option<(SendEnd<LaneNumber>, SendEnd<LaneNumber>)>,
    Option<Gathered>,
)
    ensures first { IfSome result.0 (λ ends. ends.0 ≡ record first.end { sent = first.values.items }) }
    ensures second { IfSome result.0 (λ ends. ends.1 ≡ record second.end { sent = second.values.items }) }
    ensures same { IfSome result.1 (λ r. r.end ≡ record gathered.end { taken = r.end.taken }) }
{
    join(
        rt,
        || put_both(rt, done, first, second),
        || take_until(rt, gathered, done, 2),
    )
}

fn put_both<R: Threads + Wait + Sync>(
    rt: &R,
    done: &AtomicU64,
    first: PutJob,
    second: PutJob,
) -> Option<(SendEnd<LaneNumber>, SendEnd<LaneNumber>)>
    ensures first { IfSome result (λ ends. ends.0 ≡ record first.end { sent = first.values.items }) }
    ensures second { IfSome result (λ ends. ends.1 ≡ record second.end { sent = second.values.items }) }
{
    let (one, two) = join(
        rt,
        || put_all(rt, first, done),
        || put_all(rt, second, done),
    );
    Some((one?, two?))
}

// Takes in both senders, and takes what is left of them.
fn finish<R: Wait>(
    rt: &R,
    gathered: Gathered,
    one: SendEnd<LaneNumber>,
    two: SendEnd<LaneNumber>,
    done: &AtomicU64,
) -> Option<Vec<Item<LaneNumber>>>
    requires lanes { (one.lane ≡ gathered.end.lane) × (two.lane ≡ gathered.end.lane) }
    requires fresh { gathered.end.ended ≡ [] }
    ensures one { IfSome result (λ items. of one.number items.items ≡ one.sent) }
    ensures two { IfSome result (λ items. of two.number items.items ≡ two.sent) }
    ensures numbered { IfSome result (λ items. IsNumbered items.items) }
{
    let Gathered { mut end, items } = gathered;
    end.take_in(one);
    end.take_in(two);
    let left = Gathered { end, items };
    let Some(all) = take_until(rt, left, done, 0) else {
        return None;
    };
    Some(all.items)
}

// Two threads put a list each, and a third takes: each sender's values come whole, and in its order.
fn deliver<R: Threads + Wait + Sync>(
    rt: &R,
    alloc: Global,
    first: Vec<LaneNumber>,
    second: Vec<LaneNumber>,
) -> Option<Vec<Item<LaneNumber>>>
    ensures first { IfSome result (λ items. of 0 items.items ≡ first.items) }
    ensures second { IfSome result (λ items. of 1 items.items ≡ second.items) }
    ensures numbered { IfSome result (λ items. IsNumbered items.items) }
{
    let Ok((mut one, end)) = lane::<LaneNumber>(alloc, Snapshot::of(&())) else {
        return None;
    };
    let Ok(two) = one.split() else {
        return None;
    };
    let done = AtomicU64::new(0);
    let start = Gathered {
        end,
        items: Vec::new(alloc),
    };
    let one = PutJob {
        end: one,
        values: first,
    };
    let two = PutJob {
        end: two,
        values: second,
    };
    let (ends, gathered) = exchange(rt, &done, one, two, start);
    let (Some((one, two)), Some(gathered)) = (ends, gathered) else {
        return None;
    };
    finish(rt, gathered, one, two, &done)
}

// So many numbers from this one.
fn numbers(alloc: Global, start: u64, count: u64) -> Option<Vec<LaneNumber>> {
    let mut numbers = Vec::new(alloc);
    for number in start..start.saturating_add(count) {
        numbers.push(LaneNumber(number)).ok()?;
    }
    Some(numbers)
}

// Whether the items of this sender are so many numbers from this start on, in their order.
fn come_in_order(items: &[Item<LaneNumber>], sender: u32, start: u64, count: u64) -> bool {
    let mut next = 0u64;
    for item in items {
        if item.sender == sender {
            if item.seq != next || item.value.0.checked_sub(start) != Some(next) {
                return false;
            }
            next = next.wrapping_add(1);
        }
    }
    next == count
}

// Whether each sender's items are so many numbers in their order. The senders are numbered from `first`, and put their numbers from these starts on.
fn are_as_put(items: &[Item<LaneNumber>], first: u32, starts: &[u64], count: u64) -> bool {
    let mut sender = first;
    for start in starts {
        if !come_in_order(items, sender, *start, count) {
            return false;
        }
        sender = sender.wrapping_add(1);
    }
    true
}

// What comes of two lists that two threads put.
fn delivered<R: Threads + Wait + Sync>(rt: &R, alloc: Global) -> Option<Vec<Item<LaneNumber>>> {
    let first = numbers(alloc, 0, 1000)?;
    let second = numbers(alloc, 5000, 1000)?;
    deliver(rt, alloc, first, second)
}

// Whether both lists come whole, and in their order.
fn delivers<R: Threads + Wait + Sync>(rt: &R, alloc: Global) -> bool {
    match &delivered(rt, alloc) {
        Some(items) => items.len() == 2000 && are_as_put(items.as_slice(), 0, &[0, 5000], 1000),
        None => false,
    }
}

#[test]
fn two_threads_put_and_a_third_takes(rt: HostRuntime) {
    is_right(&rt, delivers(&rt, rt.alloc()));
}

// A job for each list: ends 1, 2 and so on put them.
fn jobs_of(
    alloc: Global,
    maker: &mut SendEnd<LaneNumber>,
    lists: Vec<Vec<LaneNumber>>,
) -> Option<Vec<PutJob>>
    requires number { maker.old.number ≡ 0 }
    requires made { maker.old.made ≡ 1 }
    ensures len { IfSome result (λ jobs. vec_len jobs ≡ vec_len lists) }
    ensures ends { IfSome result (λ jobs. (n : ℕ) (j : _) → n < vec_len lists → (slice_index_or jobs.items n j).end ≡ record maker.old { number = n + 1; made = 0; sent = [] }) }
    ensures values { IfSome result (λ jobs. (n : ℕ) (j : _) (v : _) → n < vec_len lists → (slice_index_or jobs.items n j).values ≡ slice_index_or lists.items n v) }
{
    let mut jobs = Vec::new(alloc);
    for values in lists {
        let Ok(end) = maker.split() else {
            return None;
        };
        if jobs.push(PutJob { end, values }).is_err() {
            return None;
        }
    }
    Some(jobs)
}

// A thread for each job.
fn put_lists<R: Threads + Wait + Sync>(
    rt: &R,
    done: &AtomicU64,
    jobs: Vec<PutJob>,
) -> Option<Vec<Option<SendEnd<LaneNumber>>>>
    ensures len { IfSome result (λ ends. vec_len ends ≡ vec_len jobs) }
    ensures sent { IfSome result (λ ends. (n : ℕ) (e : _) (j : _) → n < vec_len jobs → IfSome (slice_index_or ends.items n e) (λ end. end ≡ record (slice_index_or jobs.items n j).end { sent = (slice_index_or jobs.items n j).values.items })) }
{
    thread::map_vec(rt, jobs, &|job| put_all(rt, job, done)).ok()
}

// A thread for each job puts, and another takes.
fn exchange_all<R: Threads + Wait + Sync>(
    rt: &R,
    done: &AtomicU64,
    jobs: Vec<PutJob>,
    gathered: Gathered,
) -> (Option<Vec<Option<SendEnd<LaneNumber>>>>, Option<Gathered>)
    ensures len { IfSome result.0 (λ ends. vec_len ends ≡ vec_len jobs) }
    ensures sent { IfSome result.0 (λ ends. (n : ℕ) (e : _) (j : _) → n < vec_len jobs → IfSome (slice_index_or ends.items n e) (λ end. end ≡ record (slice_index_or jobs.items n j).end { sent = (slice_index_or jobs.items n j).values.items })) }
    ensures same { IfSome result.1 (λ r. r.end ≡ record gathered.end { taken = r.end.taken }) }
{
    let senders = jobs.len() as u64;
    join(
        rt,
        || put_lists(rt, done, jobs),
        || take_until(rt, gathered, done, senders),
    )
}

// Takes in all ends, if each is there.
fn take_in_all(end: &mut TakeEnd<LaneNumber>, ends: Vec<Option<SendEnd<LaneNumber>>>) -> bool
    requires { (n : ℕ) (e : _) → n < vec_len ends → IfSome (slice_index_or ends.items n e) (λ s. s.lane ≡ end.old.lane) }
    ensures same { end.new ≡ record end.old { ended = end.new.ended } }
    ensures ended { result ≡ true → (n : ℕ) (e : _) → n < vec_len ends → IsSomeAnd (slice_index_or ends.items n e) (λ s. Contains end.new.ended (ended_of s)) }
{
    for sender in ends {
        let Some(sender) = sender else {
            return false;
        };
        end.take_in(sender);
    }
    true
}

// Takes in all senders, and takes what is left of them.
fn finish_all<R: Wait>(
    rt: &R,
    gathered: Gathered,
    ends: Vec<Option<SendEnd<LaneNumber>>>,
    done: &AtomicU64,
) -> Option<Vec<Item<LaneNumber>>>
    requires { (n : ℕ) (e : _) → n < vec_len ends → IfSome (slice_index_or ends.items n e) (λ s. s.lane ≡ gathered.end.lane) }
    ensures { IfSome result (λ items. (n : ℕ) (e : _) → n < vec_len ends → IsSomeAnd (slice_index_or ends.items n e) (λ s. of s.number items.items ≡ s.sent)) }
{
    let Gathered { mut end, items } = gathered;
    if !take_in_all(&mut end, ends) {
        return None;
    }
    let left = Gathered { end, items };
    let Some(all) = take_until(rt, left, done, 0) else {
        return None;
    };
    Some(all.items)
}

// A thread for each list puts it, and another takes: each list comes whole, and in its order.
fn fan_in<R: Threads + Wait + Sync>(
    rt: &R,
    alloc: Global,
    lists: Vec<Vec<LaneNumber>>,
) -> Option<Vec<Item<LaneNumber>>>
    ensures { IfSome result (λ items. (n : ℕ) (v : _) → n < vec_len lists → of (n + 1) items.items ≡ (slice_index_or lists.items n v).items) }
{
    let Ok((mut maker, end)) = lane::<LaneNumber>(alloc, Snapshot::of(&())) else {
        return None;
    };
    let Some(jobs) = jobs_of(alloc, &mut maker, lists) else {
        return None;
    };
    let start = Gathered {
        end,
        items: Vec::new(alloc),
    };
    let done = AtomicU64::new(0);
    let (ends, gathered) = exchange_all(rt, &done, jobs, start);
    let (Some(ends), Some(gathered)) = (ends, gathered) else {
        return None;
    };
    finish_all(rt, gathered, ends, &done)
}

// Where the numbers of eight lists begin.
const STARTS: [u64; 8] = [0, 100, 200, 300, 400, 500, 600, 700];

// A list of fifty numbers from each start.
fn lists(alloc: Global, starts: &[u64]) -> Option<Vec<Vec<LaneNumber>>> {
    let mut lists = Vec::new(alloc);
    for start in starts {
        lists.push(numbers(alloc, *start, 50)?).ok()?;
    }
    Some(lists)
}

// What comes of the lists that many threads put.
fn fanned_in<R: Threads + Wait + Sync>(rt: &R, alloc: Global) -> Option<Vec<Item<LaneNumber>>> {
    match lists(alloc, &STARTS) {
        Some(lists) => fan_in(rt, alloc, lists),
        None => None,
    }
}

// Whether all lists come whole, and in their order.
fn fans_in<R: Threads + Wait + Sync>(rt: &R, alloc: Global) -> bool {
    match &fanned_in(rt, alloc) {
        Some(items) => items.len() == 400 && are_as_put(items.as_slice(), 1, &STARTS, 50),
        None => false,
    }
}

#[test]
fn each_of_many_lists_comes_in_its_order(rt: HostRuntime) {
    is_right(&rt, fans_in(&rt, rt.alloc()));
}

// Whether a number is put as the sender's number `seq`.
fn puts<R: Wait>(rt: &R, end: &mut SendEnd<LaneNumber>, number: u64, seq: u64) -> bool {
    matches!(end.put(rt, LaneNumber(number)), Ok(put) if put == seq)
}

// Whether these items are all that are taken.
fn takes<R: Wait>(rt: &R, end: &mut TakeEnd<LaneNumber>, wanted: &[(u32, u64, u64)]) -> bool {
    for (sender, seq, number) in wanted {
        let value = LaneNumber(*number);
        let item = Item {
            sender: *sender,
            seq: *seq,
            value,
        };
        if end.take(rt) != Some(item) {
            return false;
        }
    }
    end.take(rt).is_none()
}

// Whether the first end is number 0 and makes a second one, number 1, and both put numbers.
fn both_put<R: Wait>(rt: &R, first: &mut SendEnd<LaneNumber>) -> bool {
    if first.number() != 0 {
        return false;
    }
    let Ok(mut second) = first.split() else {
        return false;
    };
    second.number() == 1 && puts(rt, &mut second, 20, 0) && puts(rt, first, 30, 1)
}

// Whether what two senders put comes in the order of each.
fn keeps_order<R: Wait>(rt: &R, alloc: Global) -> bool {
    let Ok((mut first, mut taker)) = lane::<LaneNumber>(alloc, Snapshot::of(&())) else {
        return false;
    };
    first.number() == 0
        && puts(rt, &mut first, 10, 0)
        && both_put(rt, &mut first)
        && takes(rt, &mut taker, &[(0, 0, 10), (1, 0, 20), (0, 1, 30)])
}

#[test]
fn items_come_in_the_order_of_each_sender(rt: HostRuntime) {
    is_right(&rt, keeps_order(&rt, rt.alloc()));
}

// The end that takes of a lane, into which both senders were taken in, of which the first put 10.
fn joined<R: Wait>(rt: &R, alloc: Global) -> Option<TakeEnd<LaneNumber>> {
    let (mut first, mut taker) = lane::<LaneNumber>(alloc, Snapshot::of(&())).ok()?;
    let second = first.split().ok()?;
    let is_put = first.put(rt, LaneNumber(10)).is_ok();
    taker.take_in(second);
    taker.take_in(first);
    is_put.then_some(taker)
}

// Whether what the senders put is there once they were taken in.
fn keeps_what_was_sent<R: Wait>(rt: &R, alloc: Global) -> bool {
    match joined(rt, alloc) {
        Some(mut taker) => takes(rt, &mut taker, &[(0, 0, 10)]),
        None => false,
    }
}

#[test]
fn ends_are_taken_in_with_what_they_sent(rt: HostRuntime) {
    is_right(&rt, keeps_what_was_sent(&rt, rt.alloc()));
}

// What is taken is used as a place with no test, since it fits the lane's key.
fn named<'a, R: Wait>(rt: &R, names: &[&'a str], places: &mut TakeEnd<Place>) -> Option<&'a str>
    requires { places.old.key ≡ length names.now }
    ensures { places.new.key ≡ places.old.key }
{
    let item = places.take(rt)?;
    Some(names[item.value.0])
}

// Whether place 2 is the last of three names, and the only place.
fn names_its_place<R: Wait>(rt: &R, alloc: Global) -> bool {
    let names = ["a", "b", "c"];
    let Ok((mut sender, mut taker)) = lane::<Place>(alloc, Snapshot::of(&names.len())) else {
        return false;
    };
    if sender.put(rt, Place(2)).is_err() {
        return false;
    }
    named(rt, &names, &mut taker) == Some("c") && named(rt, &names, &mut taker).is_none()
}

#[test]
fn what_is_taken_fits_the_key(rt: HostRuntime) {
    is_right(&rt, names_its_place(&rt, rt.alloc()));
}
