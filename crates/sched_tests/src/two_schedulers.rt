ghost use Rattle.std.specs.Prelude.{◌≡◌, [], ◌∷◌, IfSome, IfOk};
ghost use Rattle.port_words.specs.over.Over.{HasNotStopped};
ghost use Rattle.port_sched.specs.Homes.{AreHomes};
ghost use Rattle.port_sched.specs.Schedulers.{CanBegin};
ghost use Rattle.sched_tests.specs.Seats.{IsSeatOfTwo, AreFour};

use crate::bodies::{Errand, ErrandHome, Nothing, one_home, three_turns, two_queues, two_seats};
use outside::Gate;
use port_sched::{NoMemory, SchedEnd, SchedSeats, Scheduler, run};
use port_words::over::{OverSeat, over_word};
use run_queue::RunSeat;
use std::alloc::Global;
use std::sync::Wait;
use std::sync::atomic::{AtomicU64, Ordering};
use std::test::Fail;
use std::thread;
use std::thread::Threads;

// After so many looks a turn isn't held up any more.
const LOOKS: u64 = 10_000_000;

// Holds the first turn of each of two ports until a turn of the other has begun.
#[derive(Drop)]
struct MeetingPoint {
    zero: AtomicU64,
    one: AtomicU64,
    missed: AtomicU64,
}

impl MeetingPoint {
    fn new() -> MeetingPoint {
        MeetingPoint {
            zero: AtomicU64::new(0),
            one: AtomicU64::new(0),
            missed: AtomicU64::new(0),
        }
    }

    fn meet(&self, own: &AtomicU64, other: &AtomicU64) {
        own.store(1, Ordering::SeqCst);
        for _ in 0..LOOKS {
            if other.load(Ordering::SeqCst) > 0 {
                return;
            }
            thread::yield_now();
        }
        self.missed.store(1, Ordering::SeqCst);
    }
}

impl Gate for MeetingPoint {
    fn enter(&self, port: u32) {
        if port == 0 {
            self.meet(&self.zero, &self.one);
        } else {
            self.meet(&self.one, &self.zero);
        }
    }

    fn leave(&self, _port: u32) {}
}

// The seats of the two ports of a run.
fn two_homes(
    alloc: Global,
    first: ErrandHome,
    second: ErrandHome,
) -> Result<Vec<ErrandHome>, NoMemory>
    requires first { IsSeatOfTwo 0 first }
    requires second { IsSeatOfTwo 1 second }
    ensures { IfOk result (λ homes. (homes.items ≡ first ∷ second ∷ []) × AreHomes homes.items) }
{
    let mut homes = one_home(alloc, first)?;
    homes.push(second)?;
    Ok(homes)
}

fn scheduler_of(
    alloc: Global,
    first: ErrandHome,
    second: ErrandHome,
    run: RunSeat,
    over: OverSeat,
) -> Option<Scheduler<Errand>>
    requires first { IsSeatOfTwo 0 first }
    requires second { IsSeatOfTwo 1 second }
    requires over { HasNotStopped over.known.places }
    ensures { IfSome result CanBegin }
{
    let homes = two_homes(alloc, first, second).ok()?;
    Some(Scheduler::new(SchedSeats { homes, run, over }))
}

// Two schedulers for two errands, whose seats of OVER are these.
fn two_schedulers(
    alloc: Global,
    first: OverSeat,
    second: OverSeat,
    over_zero: OverSeat,
    over_one: OverSeat,
) -> Option<(Scheduler<Errand>, Scheduler<Errand>)>
    requires { AreFour first second over_zero over_one }
    ensures { IfSome result (λ r. CanBegin r.0 × CanBegin r.1) }
{
    let (first_zero, first_one) = two_seats(alloc, three_turns(0, true), 0, first)?;
    let (second_zero, second_one) = two_seats(alloc, three_turns(1, true), 1, second)?;
    let (run_zero, run_one) = two_queues(alloc)?;
    let zero = scheduler_of(alloc, first_zero, second_zero, run_zero, over_zero)?;
    let one = scheduler_of(alloc, first_one, second_one, run_one, over_one)?;
    Some((zero, one))
}

// Whether both end as done.
fn both_end<R: Threads + Wait + Sync>(
    rt: &R,
    gate: &MeetingPoint,
    zero: Scheduler<Errand>,
    one: Scheduler<Errand>,
) -> bool
    requires { CanBegin zero × CanBegin one }
{
    let mut schedulers = [zero, one];
    let mut others = [Nothing];
    run(rt, gate, &mut schedulers, &mut others);
    schedulers[0].end == Some(SchedEnd::Done) && schedulers[1].end == Some(SchedEnd::Done)
}

// The seats of a new word OVER: two counted ones, and two others.
fn four_places(alloc: Global) -> Option<(OverSeat, OverSeat, OverSeat, OverSeat)>
    ensures { IfSome result (λ r. AreFour r.0 r.1 r.2 r.3) }
{
    let Ok(mut all) = over_word(alloc, 2, 2) else {
        return None;
    };
    let fourth = all.pop()?;
    let third = all.pop()?;
    let second = all.pop()?;
    let first = all.pop()?;
    Some((first, second, third, fourth))
}

// Two schedulers serve two ports, of which each waits for the other. Whether both end as done.
fn meet<R: Threads + Wait + Sync>(rt: &R, alloc: Global, gate: &MeetingPoint) -> Option<bool> {
    let (first, second, over_zero, over_one) = four_places(alloc)?;
    let (zero, one) = two_schedulers(alloc, first, second, over_zero, over_one)?;
    Some(both_end(rt, gate, zero, one))
}

#[test]
fn two_schedulers_make_turns_at_the_same_time(rt: HostRuntime) -> Result<(), Fail> {
    let gate = MeetingPoint::new();
    assert_eq!(rt; meet(&rt, rt.alloc(), &gate), Some(true));
    assert_eq!(rt; gate.missed.load(Ordering::SeqCst), 0);
    Ok(())
}
