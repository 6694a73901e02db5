ghost use Rattle.std.specs.Prelude.{◌≡◌, true};

use std::sync::Wait;

/// What a turn answers.
#[derive(Clone, Copy, Debug, PartialEq, Eq)]
pub enum Turn {
    /// The port has nothing to do until something is put into its queue.
    Idle,
    /// All steps were made, and there may be more to do.
    More,
    /// The turn found no memory.
    NoMemory,
}

/// What a scheduler knows of the body of a port.
pub trait PortBody: Drop {
    ghost use Rattle.std.specs.Prelude.{Bool};

    // One plain value that no turn changes.
    ghost Name: { Type 0 };

    ghost name: { Self → Name };

    // The driver was stopped, and nothing is owed any more.
    ghost done: { Self → Bool };

    /// Makes at most `max` steps.
    fn turn<R: Wait>(&mut self, rt: &R, max: u32) -> Turn
        ensures name { name self.new ≡ name self.old }
        ensures done { done self.old ≡ true → done self.new ≡ true };

    fn is_finished(&self) -> bool
        ensures { result ≡ done self.now };
}
