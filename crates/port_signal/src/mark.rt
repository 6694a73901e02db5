/// A change of a port's state that its STAT word shows.
#[derive(Clone, Copy, Debug, PartialEq, Eq)]
pub enum MarkKind {
    /// The port takes no commands from now on.
    Busy,
    /// The port takes commands again.
    Free,
    /// The port is no longer open.
    Closed,
}
