//! The works on one port that are timed.
use crate::opening::work_on;
use anyhow::Result;
use sample_drivers::{Echo, Valve};
use std::rt::Clock;
use std::sync::Wait;
use std::time::Duration;

/// How often a work is made for one time.
pub(crate) const ROUNDS: u32 = 5;

/// A work on one port, of so many commands.
#[derive(Clone, Copy, Debug)]
pub(crate) enum BodyWork {
    /// They are put and an echo port handles them.
    Echo,
    /// They come to wait for a busy port.
    Wait,
    /// They wait for a busy port, which is freed.
    Free,
}

pub(crate) const WORKS: [BodyWork; 3] = [BodyWork::Echo, BodyWork::Wait, BodyWork::Free];

impl BodyWork {
    pub(crate) fn name(self) -> &'static str {
        match self {
            BodyWork::Echo => "body_echo",
            BodyWork::Wait => "body_waits",
            BodyWork::Free => "body_freed",
        }
    }

    /// How many commands it has where nothing is said; it is made with eight times as many too.
    pub(crate) fn commands(self) -> u32 {
        match self {
            BodyWork::Echo => 16_384,
            BodyWork::Wait | BodyWork::Free => 25_000,
        }
    }

    /// Makes it once.
    pub(crate) fn make<R: Clock + AllocGlobal + Wait>(
        self,
        rt: &R,
        commands: u32,
    ) -> Result<Duration> {
        let alloc = rt.alloc();
        match self {
            BodyWork::Echo => work_on(rt, alloc, Echo::new(), true, self, commands),
            BodyWork::Wait | BodyWork::Free => work_on(
                rt,
                alloc,
                Valve::new(),
                false,
                self,
                commands,
            ),
        }
    }
}

/// The shortest time of some rounds of a work.
pub(crate) fn time_of<R: Clock + AllocGlobal + Wait>(
    rt: &R,
    work: BodyWork,
    commands: u32,
) -> Result<Duration> {
    let mut best = Duration::MAX;
    for _ in 0..ROUNDS {
        best = best.min(work.make(rt, commands)?);
    }
    Ok(best)
}
