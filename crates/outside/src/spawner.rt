ghost use Rattle.std.specs.Prelude.{◌≡◌, ℕ, ◌≤◌, MatchResult};
ghost use Rattle.outside.specs.Starting.{Started, StartErr};

use crate::Child;
use std::alloc::{AllocError, Global};

/// Why no program was started.
#[derive(Clone, Copy, Debug, PartialEq, Eq)]
pub enum SpawnFault {
    /// The outside failed. A command that names no program fails so too.
    Failed,
    /// An allocation was refused.
    NoMemory,
}

impl From<AllocError> for SpawnFault {
    ghost use Rattle.outside.specs.declared.spawner.SpawnFault.TheVariants.{NoMemory};

    ghost from_gives = { λ _ fault. fault ≡ NoMemory };

    fn from(_error: AllocError) -> SpawnFault {
        SpawnFault::NoMemory
    }
}

/// What starts programs.
///
/// The count of faults never falls, and ends at the greatest `u64`. Whoever makes the spawners sees to
/// it that their children have different events.
pub trait Spawner {
    type Program: Child;

    /// The starts that failed.
    ghost faults: { Self → ℕ };

    /// Starts the program that a command text names. A child has a count of 0, and nothing was given
    /// to it or fetched from it yet.
    fn start(&mut self, alloc: Global, command: &[u8]) -> Result<Self::Program, SpawnFault>
        ensures start { MatchResult result
            (λ child. Started (faults self.old) (faults self.new) command.now (Self.Program.faults child) (Self.Program.shows child))
            (λ fault. StartErr (faults self.old) (faults self.new) fault) }
        ensures rises { faults self.old ≤ faults self.new };
}
