ghost use Rattle.std.specs.Prelude.{◌≡◌, ℕ, ◌^◌, ◌<◌, ◌≤◌, List, ◌++◌, Option, MatchResult};
ghost use Rattle.outside.specs.Causes.{PutOk, PutErr};

/// Why bytes weren't put out.
#[derive(Clone, Copy, Debug, PartialEq, Eq)]
pub enum SinkFault {
    Failed,
}

/// Where output goes, in order.
///
/// The count of faults never falls, and ends at the greatest `u64`.
pub trait Sink {
    /// The puts that failed.
    ghost faults: { Self → ℕ };

    /// What was written, where the object tells it.
    ghost written: { Self → Option (List ℕ) };

    /// The bytes of the puts that answered `Ok`, joined, oldest first.
    ghost took: { Self → List ℕ };

    /// Writes all the bytes. After `Failed` a prefix of them was written, and it isn't said which.
    fn put(&mut self, bytes: &[u8]) -> Result<(), SinkFault>
        ensures put { MatchResult result
            (λ _. PutOk (faults self.old) (faults self.new) (written self.old) (written self.new) bytes.now)
            (λ _. PutErr (faults self.old) (faults self.new) (written self.old) (written self.new) bytes.now) }
        ensures rises { faults self.old ≤ faults self.new }
        ensures took { MatchResult result (λ _. took self.new ≡ took self.old ++ bytes.now) (λ _. took self.new ≡ took self.old) };
}
