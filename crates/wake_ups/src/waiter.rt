// Where a thread waits, and others wake it.
use std::sync::Wait;
use std::sync::atomic::{AtomicBool, Ordering};
use std::thread::Parker;
use std::time::Duration;

/// Where one thread waits, and any others wake it.
///
/// Who waits says so first (`announce`), then looks once more for what it waits for, and sleeps only if that look found nothing. Who brings something does so
/// first, and calls `wake` then. So either the look finds what was brought, or the wake-up finds the announcement and ends the sleep, also one that
/// hasn't begun yet. A `wake` where nobody waits costs one load.
#[derive(Drop)]
pub struct Waiter {
    is_waiting: AtomicBool,
    parker: Parker,
}

impl Waiter {
    /// Nobody waits at it.
    pub fn new() -> Waiter {
        Waiter {
            is_waiting: AtomicBool::new(false),
            parker: Parker::new(),
        }
    }

    /// Says that its thread is about to wait. Answers whether that wasn't said yet since the last sleep or wake-up.
    pub fn announce(&self) -> bool {
        if self.is_waiting.load(Ordering::SeqCst) {
            return false;
        }
        self.is_waiting.store(true, Ordering::SeqCst);
        true
    }

    /// Sleeps for this time, or until a wake-up. It may end earlier. One thread at a time may call it.
    pub fn sleep<R: Wait>(&self, rt: &R, time: Duration) {
        self.parker.park_timeout(rt, time);
        self.is_waiting.store(false, Ordering::SeqCst);
    }

    /// Wakes the thread that has announced that it waits. Answers whether there was one.
    pub fn wake(&self) -> bool {
        if !self.is_waiting.load(Ordering::SeqCst) {
            return false;
        }
        if !self.is_waiting.swap(false, Ordering::SeqCst) {
            return false;
        }
        self.parker.unpark();
        true
    }
}
