use crate::{Effect, Items, Log, MarkKind, Outside, Sender, Task};

/// An event of a port. `seq` is the place of the task in the order of its sender, from 0.
#[derive(Drop)]
pub enum Row {
    /// The port handled a task: the outside's answers to the driver's calls, and the driver's effects, in their order.
    Handled {
        from: Sender,
        seq: u64,
        task: Task,
        outside: Items<Outside>,
        effects: Items<Effect>,
    },
    /// A task that found the port as it couldn't be handled any more. No driver was called.
    Late {
        from: Sender,
        seq: u64,
        task: Task,
    },
    /// The sender of this task is suspended, and waits for its resume.
    Listed {
        from: Sender,
        seq: u64,
    },
    /// The sender of this task was resumed; `word` is the word MSGQ that was loaded for it.
    Resumed {
        from: Sender,
        seq: u64,
        word: u64,
    },
    Mark(MarkKind),
}

/// The rows of one port, oldest first.
pub type Rows = Log<Row>;

/// The history of one port.
#[derive(Drop)]
pub struct Journal {
    pub rows: Rows,
}
