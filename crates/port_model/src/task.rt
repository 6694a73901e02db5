ghost use Rattle.std.specs.Prelude.{◌≡◌, true, false};
ghost use Rattle.port_model.specs.Signals.{is_command};

use crate::Signal;
use std::marker::Model;

/// A signal as it lies in a port's queue: whether it suspends its sender, and whether it is forced on a busy port. It never is both,
/// and only a command is either: the flags of `port_command` decide.
#[derive(Drop)]
pub struct Task {
    signal: Signal,
    suspends: bool,
    forced: bool,
}

impl Model for Task {
    ghost use Rattle.port_model.specs.Tasks.{TaskView, IsTask};

    ghost Value = { TaskView };

    ghost view = { λ t. record { signal = t.signal; suspends = t.suspends; forced = t.forced } };

    ghost invariant = { λ t. IsTask (record { signal = t.signal; suspends = t.suspends; forced = t.forced }) };
}

impl Task {
    /// A signal that neither suspends its sender nor is forced.
    pub fn new(signal: Signal) -> Task
        ensures { result ≡ record { signal = signal; suspends = false; forced = false } }
    {
        Task {
            signal,
            suspends: false,
            forced: false,
        }
    }

    /// A command whose sender is suspended once it was put.
    pub fn suspending(signal: Signal) -> Task
        requires { is_command signal ≡ true }
        ensures { result ≡ record { signal = signal; suspends = true; forced = false } }
    {
        Task {
            signal,
            suspends: true,
            forced: false,
        }
    }

    /// A command that a busy port takes too: the option `force` of `port_command`.
    pub fn forced(signal: Signal) -> Task
        requires { is_command signal ≡ true }
        ensures { result ≡ record { signal = signal; suspends = false; forced = true } }
    {
        Task {
            signal,
            suspends: false,
            forced: true,
        }
    }

    pub fn signal(&self) -> &Signal
        ensures { result.now ≡ self.now.signal }
    {
        &self.signal
    }

    pub fn suspends(&self) -> bool
        ensures { result ≡ self.now.suspends }
    {
        self.suspends
    }

    pub fn is_forced(&self) -> bool
        ensures { result ≡ self.now.forced }
    {
        self.forced
    }
}
