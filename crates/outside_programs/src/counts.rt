//! How often each event is ready, and who waits for that, shared by a poll set and the threads that serve its children.
use outside::NoMemory;
use std::alloc::Global;
use std::sync::atomic::{AtomicU64, Ordering};
use std::sync::{Arc, OnceLock};
use wake_ups::Waiter;

/// A count for each event, and where the thread waits that is woken when one rises.
#[derive(Drop)]
struct Readiness {
    counts: Vec<AtomicU64>,
    waiter: OnceLock<Arc<Waiter, Global>>,
}

/// A count for each event. An event is ready where its count isn't 0.
#[derive(Drop)]
pub(crate) struct Counts {
    shared: Arc<Readiness, Global>,
}

impl Counts {
    pub(crate) fn new(alloc: Global, events: u32) -> Result<Self, NoMemory> {
        let mut counts = Vec::new(alloc);
        for _ in 0..events {
            counts.push(AtomicU64::new(0)).map_err(|_| NoMemory)?;
        }
        let readiness = Readiness {
            counts,
            waiter: OnceLock::new(),
        };
        match Arc::new(alloc, readiness) {
            Ok(shared) => Ok(Counts { shared }),
            Err(_) => Err(NoMemory),
        }
    }

    /// The same counts, for another thread.
    pub(crate) fn share(&self) -> Result<Self, NoMemory> {
        match Arc::try_clone(&self.shared) {
            Ok(shared) => Ok(Counts { shared }),
            Err(_) => Err(NoMemory),
        }
    }

    /// Who waits at this waiter is woken from now on. Only the first one counts.
    pub(crate) fn wake_at(&self, waiter: &Arc<Waiter, Global>) {
        if let Ok(waiter) = Arc::try_clone(waiter) {
            let _ = self.shared.waiter.try_set(waiter);
        }
    }

    /// Whether somebody is woken when a count rises.
    pub(crate) fn has_waiter(&self) -> bool {
        self.shared.waiter.get().is_some()
    }

    fn wake(&self) {
        if let Some(waiter) = self.shared.waiter.get() {
            waiter.wake();
        }
    }

    pub(crate) fn is_ready(&self, event: u32) -> bool {
        match self.shared.counts.get(event as usize) {
            Some(count) => count.load(Ordering::SeqCst) != 0,
            None => false,
        }
    }

    pub(crate) fn set(&self, event: u32, value: u64) {
        if let Some(count) = self.shared.counts.get(event as usize) {
            count.store(value, Ordering::SeqCst);
            self.wake();
        }
    }

    pub(crate) fn raise(&self, event: u32) {
        if let Some(count) = self.shared.counts.get(event as usize) {
            count.fetch_add(1, Ordering::SeqCst);
            self.wake();
        }
    }

    /// Lowers the count by one where it isn't 0.
    pub(crate) fn lower(&self, event: u32) {
        if let Some(count) = self.shared.counts.get(event as usize) {
            let _ = count.fetch_update(Ordering::SeqCst, Ordering::SeqCst, |n| n.checked_sub(1));
        }
    }
}
