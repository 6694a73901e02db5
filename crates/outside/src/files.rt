ghost use Rattle.std.specs.Prelude.{◌≡◌, ℕ, ◌^◌, ◌<◌, ◌≤◌, List, Option, MatchResult};
ghost use Rattle.std.specs.List.{flat_map};
ghost use Rattle.outside.specs.Causes.{ReadOk, ReadErr, WriteOk, WriteErr};
ghost use Rattle.outside.specs.Log.{NamedBytes, noted};

use std::alloc::{AllocError, Global};

/// Why a file wasn't read or written.
#[derive(Clone, Copy, Debug, PartialEq, Eq)]
pub enum FileFault {
    /// The outside failed. Where the object doesn't tell what it holds, a missing file fails so too.
    Failed,
    /// The file has more bytes than were asked for.
    Over,
    /// An allocation was refused.
    NoMemory,
    /// The object tells what it holds, and holds no file of this name.
    Missing,
}

impl From<AllocError> for FileFault {
    ghost use Rattle.outside.specs.declared.files.FileFault.TheVariants.{NoMemory};

    ghost from_gives = { λ _ fault. fault ≡ NoMemory };

    fn from(_error: AllocError) -> FileFault {
        FileFault::NoMemory
    }
}

/// Whole files by name.
///
/// Reads and writes have a count of faults each, and a call raises its own alone. A count never
/// falls, and ends at the greatest `u64`.
pub trait Files {
    /// The reads that failed.
    ghost reads: { Self → ℕ };

    /// The writes that failed.
    ghost writes: { Self → ℕ };

    /// What the object tells that each name holds.
    ghost told: { Self → Option (List ℕ → Option (List ℕ)) };

    /// The name and the bytes of each read that answered `Ok`, oldest first.
    ghost answered: { Self → List NamedBytes };

    /// The name and the bytes of each write that answered `Ok`, oldest first.
    ghost wrote: { Self → List NamedBytes };

    /// Reads the whole named file, if it has at most `max` bytes.
    fn read(&mut self, alloc: Global, name: &str, max: u64) -> Result<Vec<u8>, FileFault>
        ensures read { MatchResult result
            (λ bytes. ReadOk (reads self.old) (reads self.new) (told self.old) name.now max bytes.items)
            (λ fault. ReadErr (reads self.old) (reads self.new) (told self.old) name.now max fault) }
        ensures rises { reads self.old ≤ reads self.new }
        ensures writes { writes self.new ≡ writes self.old }
        ensures told { told self.new ≡ told self.old }
        ensures answered { MatchResult result (λ bytes. answered self.new ≡ noted (answered self.old) name.now bytes.items) (λ _. answered self.new ≡ answered self.old) }
        ensures wrote { wrote self.new ≡ wrote self.old };

    /// Makes these parts, joined in their order, the whole named file, and makes the file where there is none.
    ///
    /// It answers `Failed` or `NoMemory` alone. After `Failed` the named file is unknown.
    fn write(&mut self, alloc: Global, name: &str, parts: &[&[u8]]) -> Result<(), FileFault>
        ensures write { MatchResult result
            (λ _. WriteOk (writes self.old) (writes self.new) (told self.old) (told self.new) name.now (flat_map (λ part. part.now) parts.now))
            (λ fault. WriteErr (writes self.old) (writes self.new) (told self.old) (told self.new) name.now fault) }
        ensures rises { writes self.old ≤ writes self.new }
        ensures reads { reads self.new ≡ reads self.old }
        ensures wrote { MatchResult result (λ _. wrote self.new ≡ noted (wrote self.old) name.now (flat_map (λ part. part.now) parts.now)) (λ _. wrote self.new ≡ wrote self.old) }
        ensures answered { answered self.new ≡ answered self.old };
}
