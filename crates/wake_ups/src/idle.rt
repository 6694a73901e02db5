// A wait that grows.
use crate::waiter::Waiter;
use crossbeam_utils::Backoff;
use std::cell::Cell;
use std::sync::Wait;
use std::thread::Parker;
use std::time::Duration;

// How many microseconds it sleeps at first, once it has spun and yielded.
const SHORTEST: u64 = 100;

// It sleeps for so many microseconds at most, or for this part of all that it has slept where that is more.
const COMMON: u64 = 1_000;

const PART: u64 = 16;

// And at most for so many.
const LONGEST: u64 = 40_000;

// A sleep of so many microseconds or more can be ended by others. A shorter one would end by itself about as soon, and a wake-up costs the one who wakes.
const WOKEN: u64 = 400;

/// A wait that grows: it spins, then yields the processor, then sleeps, for 100 microseconds at first, twice as long each time, and for a millisecond at most
/// while it has slept for less than 16 milliseconds; from then on for a sixteenth of the time that it has slept, and for 40 milliseconds at most.
///
/// For a loop that looks again and again for something to do, as a scheduler's. Each loop has one of its own. It calls `wait` or `wait_at` after each round that
/// found nothing, and `reset` after each that found something, so that a loop that has work answers at once, and one that has none for long leaves the
/// processor to the others. The first eleven waits after a `reset` take some microseconds in all, and each further one sleeps. A sleep at a `Waiter` that would last for 400
/// microseconds or longer ends where somebody wakes it. Another one ends by itself alone: what comes is found after a millisecond, or after a sixteenth of the time for which nothing came, and a loop that
/// waits for long looks twenty-five times a second.
///
/// A wait has no bound that a contract could tell, and what a loop waits for it has to look for itself: a job of a run looks at its seat of OVER in each round, and
/// ends where it finds that the run is over.
#[derive(Drop)]
pub struct Idle {
    backoff: Backoff,
    nap: Cell<u64>,
    slept: Cell<u64>,
}

impl Idle {
    /// A wait that hasn't grown yet.
    pub fn new() -> Idle {
        Idle {
            backoff: Backoff::new(),
            nap: Cell::new(SHORTEST),
            slept: Cell::new(0),
        }
    }

    /// The round found something to do: the next wait is a short one again.
    pub fn reset(&self) {
        self.backoff.reset();
        self.nap.set(SHORTEST);
        self.slept.set(0);
    }

    /// The round found nothing to do: waits a little, longer each time up to a sleep of 40 milliseconds. Nobody can end it.
    pub fn wait<R: Wait>(&self, rt: &R) {
        if self.has_spun() {
            Parker::new().park_timeout(rt, self.next_nap());
        }
    }

    /// As `wait`, but a wake-up at this waiter ends a sleep, unless it is one of the two first and shortest. Before each sleep that can be ended there is one call that only
    /// announces it, so that the caller looks once more.
    pub fn wait_at<R: Wait>(&self, rt: &R, waiter: &Waiter) {
        if self.nap.get() < WOKEN {
            self.wait(rt);
        } else if !waiter.announce() {
            waiter.sleep(rt, self.next_nap());
        }
    }

    // Spins or yields the processor, or answers that it has done so for long enough.
    fn has_spun(&self) -> bool {
        if self.backoff.is_completed() {
            return true;
        }
        self.backoff.snooze();
        false
    }

    // How long the next sleep is, and the one behind it is longer.
    fn next_nap(&self) -> Duration {
        let nap = self.nap.get();
        let slept = self.slept.get().saturating_add(nap);
        self.slept.set(slept);
        let most = (slept / PART).max(COMMON).min(LONGEST);
        self.nap.set(nap.saturating_mul(2).min(most));
        Duration::from_micros(nap)
    }
}
