ghost use Rattle.std.specs.Prelude.{◌≡◌, codes};
ghost use Rattle.port_signal.specs.Reasons.{is_kill, is_normal, told_reason};

use crate::Reason;

/// The reasons that have a meaning of their own.
impl Reason {
    /// The reason of what ends as it should.
    pub fn normal() -> Reason
        ensures { result ≡ codes "normal" }
    {
        match Reason::of_bytes(b"normal") {
            Ok(reason) => reason,
            Err(_) => unreachable!(),
        }
    }

    /// The reason that is told of a port that ended before.
    pub fn noproc() -> Reason
        ensures { result ≡ codes "noproc" }
    {
        match Reason::of_bytes(b"noproc") {
            Ok(reason) => reason,
            Err(_) => unreachable!(),
        }
    }

    /// The reason of an owner form that can't be done.
    pub fn badsig() -> Reason
        ensures { result ≡ codes "badsig" }
    {
        match Reason::of_bytes(b"badsig") {
            Ok(reason) => reason,
            Err(_) => unreachable!(),
        }
    }

    /// Whether it is the reason of an end that is no failure.
    pub fn is_normal(&self) -> bool
        ensures { result ≡ is_normal self.now }
    {
        self.as_bytes() == b"normal".as_slice()
    }

    /// Whether it is the reason `kill`, with which nothing that is queued is flushed.
    pub fn is_kill(&self) -> bool
        ensures { result ≡ is_kill self.now }
    {
        self.as_bytes() == b"kill".as_slice()
    }

    /// The reason that others are told: `kill` is told as `killed`.
    pub fn told(&self) -> Reason
        ensures { result ≡ told_reason self.now }
    {
        if !self.is_kill() {
            return self.same();
        }
        match Reason::of_bytes(b"killed") {
            Ok(reason) => reason,
            Err(_) => unreachable!(),
        }
    }
}
