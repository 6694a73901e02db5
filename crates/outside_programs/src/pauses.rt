//! How long a poll set pauses where nothing is ready.
use std::time::Duration;

/// The first pause, in microseconds.
const LEAST: u64 = 20;

/// The longest pause, in microseconds, while the pauses together are less than `PART` of them.
const COMMON: u64 = 1_000;

/// From then on a pause is at most this part of all pauses together.
const PART: u64 = 16;

/// The longest pause, in microseconds.
const MOST: u64 = 10_000;

/// The pauses of waits that find nothing: 20 microseconds at first, then twice as long each time, and a millisecond at most for the first 16 milliseconds;
/// from then on a sixteenth of the time for which nothing was found, and 10 milliseconds at most. They are short again once something was found, or another
/// number of events is waited for.
#[derive(Drop)]
pub(crate) struct Pauses {
    micros: u64,
    paused: u64,
    armed: usize,
}

impl Pauses {
    pub(crate) fn new() -> Pauses {
        Pauses {
            micros: LEAST,
            paused: 0,
            armed: 0,
        }
    }

    /// The pause of a wait for so many events.
    pub(crate) fn next(&mut self, armed: usize) -> Duration {
        if armed != self.armed {
            self.armed = armed;
            self.restart();
        }
        let pause = self.micros;
        self.paused = self.paused.saturating_add(pause);
        let most = (self.paused / PART).max(COMMON).min(MOST);
        self.micros = pause.saturating_mul(2).min(most);
        Duration::from_micros(pause)
    }

    /// A wait found nothing, or something.
    pub(crate) fn note(&mut self, is_quiet: bool) {
        if !is_quiet {
            self.restart();
        }
    }

    /// The next pause is a short one again.
    fn restart(&mut self) {
        self.micros = LEAST;
        self.paused = 0;
    }
}
