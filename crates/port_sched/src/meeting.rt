// The start of jobs that wait for each other.
use crossbeam_utils::atomic::AtomicCell;
use std::sync::Wait;
use wake_ups::Idle;

// How often a job looks for the others: with the pauses behind the looks, which grow to 40 milliseconds, for ten seconds or a little more.
const LOOKS: u32 = 330;

// Where jobs wait for each other before they begin. Each of them runs beside the others only in a thread of its own: where one can't be made, a job is run behind another,
// and jobs that wait for each other would never end so.
#[derive(Drop)]
pub(crate) struct Meeting {
    wanted: usize,
    came: AtomicCell<usize>,
    was_left: AtomicCell<bool>,
}

impl Meeting {
    // A meeting of so many jobs.
    pub(crate) fn new(wanted: usize) -> Meeting {
        Meeting {
            wanted,
            came: AtomicCell::new(0),
            was_left: AtomicCell::new(false),
        }
    }

    // Waits until all jobs have come. Answers whether they have: not where one of them left, as each does that has waited for some ten seconds in vain.
    pub(crate) fn have_all_come<R: Wait>(&self, rt: &R) -> bool {
        self.came.fetch_add(1);
        let idle = Idle::new();
        for _ in 0..LOOKS {
            if self.was_left.load() {
                return false;
            }
            if self.came.load() >= self.wanted {
                return true;
            }
            idle.wait(rt);
        }
        self.was_left.store(true);
        false
    }
}
