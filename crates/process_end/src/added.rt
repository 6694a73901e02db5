/// What became of a command that found its port open.
#[derive(Clone, Copy)]
pub(crate) enum CommandAdded {
    /// The message queue was busy, by this word.
    Dropped { msgq: u64 },
    /// It was put at this place, and its add left this word.
    Put { msgq: u64, seq: u64, suspends: bool },
}
