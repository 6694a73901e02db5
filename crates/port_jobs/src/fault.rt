use no_memory::NoMemory as NoMemoryFound;
use thiserror::Error;

/// Why not all jobs of some effects were submitted.
#[derive(Clone, Copy, Debug, PartialEq, Eq, Error)]
pub enum SubmitFault {
    /// The numbers of the jobs don't go on from those that were submitted before, or a code is none of a job.
    #[error("a job isn't the next one")]
    NotNext,
    #[error("out of memory")]
    NoMemory,
}

impl From<NoMemoryFound> for SubmitFault {
    ghost use Rattle.std.specs.Prelude.{◌≡◌};
    ghost use Rattle.port_jobs.specs.declared.fault.SubmitFault.TheVariants as fault;

    ghost from_gives = { λ _ f. f ≡ fault.NoMemory };

    fn from(_: NoMemoryFound) -> SubmitFault {
        SubmitFault::NoMemory
    }
}
