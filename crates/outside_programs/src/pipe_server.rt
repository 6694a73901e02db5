use crate::counts::Counts;
use crate::real_poll::RealPoll;
use crate::threads::{Pipes, serve_pipes};
use crossbeam_channel::{Sender, unbounded};
use outside::NoMemory;
use std::alloc::Global;
use std::sync::Wait;
use std::thread;
use std::thread::Threads;
use std::time::Clock;

/// Serves the pipes of all children: one thread, which waits for them and makes two threads for each child. So a program that starts no child has
/// this one thread beside its own.
///
/// Where the thread can't be made, every start of a child fails.
#[derive(Drop)]
pub struct PipeServer {
    children: Option<Sender<Pipes>>,
    counts: Counts,
}

impl PipeServer {
    /// Begins to serve pipes, whose events are those of this poll set.
    pub fn new<R: Threads + Wait + Copy + Send + Sync + Drop + 'static, C: Clock + Drop>(
        alloc: Global,
        rt: R,
        poll: &RealPoll<C>,
    ) -> Result<Self, NoMemory> {
        let (children, served) = unbounded::<Pipes, Global>(alloc)?;
        let counts = poll.counts()?;
        let is_made = thread::spawn(&rt, move || serve_pipes(&rt, alloc, &counts, &served)).is_ok();
        Ok(PipeServer {
            children: if is_made { Some(children) } else { None },
            counts: poll.counts()?,
        })
    }

    /// The same, for another spawner.
    pub(crate) fn share(&self) -> Result<Self, NoMemory> {
        let children = match &self.children {
            Some(children) => Some(children.clone()?),
            None => None,
        };
        Ok(PipeServer {
            children,
            counts: self.counts.share()?,
        })
    }

    /// The counts of the events.
    pub(crate) fn counts(&self) -> &Counts {
        &self.counts
    }

    /// Hands over the pipes of a child. Answers whether they are taken.
    pub(crate) fn send<R: Wait>(&self, rt: &R, pipes: Pipes) -> bool {
        match &self.children {
            Some(children) => children.send(rt, pipes).is_ok(),
            None => false,
        }
    }
}
