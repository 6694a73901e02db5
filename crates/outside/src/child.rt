ghost use Rattle.std.specs.Prelude.{◌≡◌, ℕ, ◌≤◌, true};
ghost use Rattle.outside.specs.Children.{ChildView, Shows, Offers, Fetches, HasStatus};

use std::alloc::Global;

/// What a child answers to bytes that are offered to it.
#[derive(Clone, Copy, Debug, PartialEq, Eq)]
pub enum Offered {
    /// It took so many of the bytes, from their front.
    Took(usize),
    /// The outside failed, and it took none.
    Failed,
}

/// What a child answers when its output is fetched.
#[derive(Debug, Drop)]
pub enum Fetched {
    /// The next bytes of its output, at least one.
    Bytes(Vec<u8>),
    /// It has nothing to give now, and its output hasn't ended.
    Again,
    /// Its output has ended, and all of it was fetched.
    End,
    /// The outside failed, and gave nothing.
    Failed,
    /// An allocation was refused. Nothing was given, and nothing is lost.
    NoMemory,
}

/// What a child answers when it is asked for its status.
#[derive(Clone, Copy, Debug, PartialEq, Eq)]
pub enum StatusGot {
    /// The status with which the program ended: 0 to 255 of a real one, and 255 where it ended without.
    Ended(i32),
    Failed,
}

/// A program that was started, with its input and its output.
///
/// The count of faults never falls, and ends at the greatest `u64`. What it was given and what was
/// fetched from it is told by every child; how its program stands only where the object can tell.
pub trait Child: Send {
    /// The calls that failed.
    ghost faults: { Self → ℕ };

    /// What the child shows.
    ghost shows: { Self → ChildView };

    /// The event of its output, which is ready where a fetch may give something, and that of its
    /// input, which is ready where an offer may take something.
    fn events(&self) -> (u32, u32)
        ensures { result ≡ ((shows self.now).read_event, (shows self.now).write_event) };

    /// Offers bytes to the program's input. It takes a front part of them, which may be empty.
    fn offer(&mut self, bytes: &[u8]) -> Offered
        ensures offer { Offers (faults self.old) (faults self.new) (shows self.old) (shows self.new) bytes.now result }
        ensures rises { faults self.old ≤ faults self.new };

    /// Fetches the next bytes of the program's output, at most `max` of them. After `End` every fetch
    /// answers `End`.
    fn fetch(&mut self, alloc: Global, max: usize) -> Fetched
        requires { 1 ≤ max }
        ensures fetch { Fetches (faults self.old) (faults self.new) (shows self.old) (shows self.new) max result }
        ensures rises { faults self.old ≤ faults self.new };

    /// The status of a program whose end was fetched.
    fn status(&mut self) -> StatusGot
        requires { (shows self.old).at_end ≡ true }
        ensures status { HasStatus (faults self.old) (faults self.new) (shows self.old) (shows self.new) result }
        ensures rises { faults self.old ≤ faults self.new };

    /// Closes the program's input and output. The program is neither killed nor waited for.
    fn stop(&mut self)
        ensures faults { faults self.new ≡ faults self.old }
        ensures stop { Shows (record (shows self.old) { stopped = true }) (shows self.new) };
}
