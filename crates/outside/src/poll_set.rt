ghost use Rattle.std.specs.Prelude.{◌≡◌, ◌==◌, ℕ, ◌^◌, ◌<◌, ◌≤◌, List, MatchResult};
ghost use Rattle.std.specs.List.{IsDistinct};
ghost use Rattle.outside.specs.Causes.{WaitOk, WaitErr};

use std::alloc::{AllocError, Global};
use std::sync::Arc;
use wake_ups::Waiter;

/// Why a wait answered no events.
#[derive(Clone, Copy, Debug, PartialEq, Eq)]
pub enum PollFault {
    Failed,
    /// An allocation was refused.
    NoMemory,
}

impl From<AllocError> for PollFault {
    ghost use Rattle.outside.specs.declared.poll_set.PollFault.TheVariants.{NoMemory};

    ghost from_gives = { λ _ fault. fault ≡ NoMemory };

    fn from(_error: AllocError) -> PollFault {
        PollFault::NoMemory
    }
}

/// What says which events are ready.
///
/// The count of faults never falls, and ends at the greatest `u64`. Readiness is a hint: an event
/// that is answered needn't have anything to give, and one that isn't may have.
pub trait PollSet {
    /// The waits that failed.
    ghost faults: { Self → ℕ };

    /// All events that waits answered so far, in order.
    ghost answered: { Self → List ℕ };

    /// Says where the thread waits that is to be woken as soon as an event is ready. The first one that it is told counts. It is a hint as well: a set that knows of no
    /// readiness beforehand, as one in memory, wakes nobody.
    fn wake_at(&self, waiter: &Arc<Waiter, Global>);

    /// Answers some of the armed events, in their order, each once at most. An empty answer says
    /// nothing.
    fn wait(&mut self, alloc: Global, armed: &[u32]) -> Result<Vec<u32>, PollFault>
        requires { IsDistinct (λ a b. a == b) armed.now }
        ensures wait { MatchResult result
            (λ events. WaitOk (faults self.old) (faults self.new) (answered self.old) (answered self.new) armed.now events.items)
            (λ fault. WaitErr (faults self.old) (faults self.new) (answered self.old) (answered self.new) fault) }
        ensures rises { faults self.old ≤ faults self.new };
}
