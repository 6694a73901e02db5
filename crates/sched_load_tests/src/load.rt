use outside::{Gate, OpenGate};
use sched_load::{LoadEnd, LoadSize, run_load};
use std::sync::atomic::{AtomicU64, Ordering};
use std::test::Fail;
use std::thread;

// After so many looks a turn isn't held up any more.
const LOOKS: u64 = 10_000_000;

// Holds the first turn until another one has begun, which has to be on another thread.
#[derive(Drop)]
struct Held {
    entered: AtomicU64,
    missed: AtomicU64,
}

impl Held {
    fn new() -> Held {
        Held {
            entered: AtomicU64::new(0),
            missed: AtomicU64::new(0),
        }
    }

    fn hold(&self) {
        for _ in 0..LOOKS {
            if self.entered.load(Ordering::SeqCst) > 1 {
                return;
            }
            thread::yield_now();
        }
        self.missed.store(1, Ordering::SeqCst);
    }
}

impl Gate for Held {
    fn enter(&self, _port: u32) {
        if self.entered.fetch_add(1, Ordering::SeqCst) == 0 {
            self.hold();
        }
    }

    fn leave(&self, _port: u32) {}
}

// Whether so many ports came back, and each took each number of each sender once.
fn is_whole(outcome: &LoadEnd, size: LoadSize) -> bool {
    outcome.all_done
        && outcome.tills.len() == size.ports as usize
        && outcome
            .tills
            .iter()
            .all(|lodger| lodger.body.took_each_once(size.numbers))
}

#[test]
fn each_of_many_ports_comes_back_and_takes_each_number_once(rt: HostRuntime) -> Result<(), Fail> {
    let size = LoadSize {
        schedulers: 16,
        ports: 32,
        jobs: 4,
        numbers: 1_000,
        pause: 0,
    };
    let outcome = run_load(&rt, rt.alloc(), &OpenGate, size)?;
    assert!(rt; is_whole(&outcome, size));
    Ok(())
}

#[test]
fn a_second_scheduler_makes_turns_while_the_first_is_held(rt: HostRuntime) -> Result<(), Fail> {
    let size = LoadSize {
        schedulers: 2,
        ports: 2,
        jobs: 1,
        numbers: 100,
        pause: 0,
    };
    let gate = Held::new();
    let outcome = run_load(&rt, rt.alloc(), &gate, size)?;
    assert!(rt; is_whole(&outcome, size));
    assert_eq!(rt; gate.missed.load(Ordering::SeqCst), 0);
    Ok(())
}

#[test]
fn one_scheduler_makes_a_turn_of_each_port_and_steals_nothing(rt: HostRuntime) -> Result<(), Fail> {
    let size = LoadSize {
        schedulers: 1,
        ports: 32,
        jobs: 1,
        numbers: 10,
        pause: 1,
    };
    let outcome = run_load(&rt, rt.alloc(), &OpenGate, size)?;
    assert!(rt; is_whole(&outcome, size));
    assert!(rt; outcome.turns.queued.saturating_add(outcome.turns.idle) >= 32);
    assert_eq!(rt; outcome.turns.stolen, 0);
    Ok(())
}
