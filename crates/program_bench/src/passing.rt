//! Bytes that go through a program of the machine.
use anyhow::{Result, bail};
use outside::{Child, Fetched, Offered, PollSet, Spawner};
use std::alloc::Global;
use std::time::{Clock, Duration, Instant};

/// The most bytes of one offer and of one fetch.
const PART: usize = 65_536;

/// The event of what the program gives.
pub(crate) const READ: u32 = 0;

/// The event of what the program takes.
pub(crate) const WRITE: u32 = 1;

/// How many rounds may neither give nor fetch a byte. Each waits for a millisecond at most.
const MOST_IDLE: u32 = 10_000;

/// How often the bytes are sent for one time.
const ROUNDS: u32 = 5;

/// What is left of a text that goes to a program and comes back.
#[derive(Drop)]
struct Passing<'a> {
    to_give: &'a [u8],
    to_fetch: usize,
}

impl Passing<'_> {
    /// Offers the next bytes once. Answers whether some were taken.
    fn offer<C: Child>(&mut self, child: &mut C) -> Result<bool> {
        let part = self.to_give.len().min(PART);
        match child.offer(&self.to_give[..part]) {
            Offered::Took(count) => {
                self.to_give = self.to_give.get(count..).unwrap_or_default();
                Ok(count > 0)
            }
            Offered::Failed => bail!("the program takes nothing"),
        }
    }

    /// Fetches once. Answers whether some bytes came.
    fn fetch<C: Child>(&mut self, alloc: Global, child: &mut C) -> Result<bool> {
        match child.fetch(alloc, PART) {
            Fetched::Bytes(bytes) => {
                self.to_fetch = self.to_fetch.saturating_sub(bytes.len());
                Ok(true)
            }
            Fetched::Again => Ok(false),
            Fetched::End | Fetched::Failed | Fetched::NoMemory => bail!(
                "the program gives nothing"
            ),
        }
    }
}

/// Gives a program a text that it answers, and fetches the answer.
fn pass<C: Child, P: PollSet>(
    alloc: Global,
    child: &mut C,
    poll: &mut P,
    text: &[u8],
) -> Result<()> {
    let mut passing = Passing {
        to_give: text,
        to_fetch: text.len(),
    };
    let mut idle = 0u32;
    for _ in 0..u32::MAX {
        if passing.to_fetch == 0 || idle > MOST_IDLE {
            break;
        }
        let given = passing.offer(child)?;
        let fetched = passing.fetch(alloc, child)?;
        if !given && !fetched {
            idle = idle.saturating_add(1);
            let _ = poll.wait(alloc, &[READ]);
        }
    }
    if passing.to_fetch > 0 {
        bail!("the program doesn't answer");
    }
    Ok(())
}

/// Starts `cat`, and passes a text through it.
fn pass_through<S: Spawner, P: PollSet>(
    alloc: Global,
    spawner: &mut S,
    poll: &mut P,
    text: &[u8],
) -> Result<()>
where
    S::Program: Drop,
{
    let Ok(mut child) = spawner.start(alloc, b"cat") else {
        bail!("no program was started");
    };
    pass(alloc, &mut child, poll, text)?;
    child.stop();
    Ok(())
}

/// The shortest time of some rounds to send so many bytes through `cat`, from its start on, by offers and fetches of at most 65,536 bytes on one thread.
pub(crate) fn cat_time<R: Clock + AllocGlobal, S: Spawner, P: PollSet>(
    rt: &R,
    spawner: &mut S,
    poll: &mut P,
    bytes: u32,
) -> Result<Duration>
where
    S::Program: Drop,
{
    let alloc = rt.alloc();
    let text = vec![in alloc; b'a'; bytes as usize]?;
    let mut best = Duration::MAX;
    for _ in 0..ROUNDS {
        let start = Instant::now(rt)?;
        pass_through(alloc, spawner, poll, text.as_slice())?;
        best = best.min(start.elapsed(rt)?);
    }
    Ok(best)
}
