use thiserror::Error;

/// More bytes were to leave a queue than it has. `size` is how many it has.
#[derive(Clone, Copy, Debug, PartialEq, Eq, Error)]
#[error("the queue has only {size} bytes")]
pub struct DeqPast {
    pub size: u64,
}

/// Why a vector wasn't put into a queue.
#[derive(Clone, Copy, Debug, PartialEq, Eq, Error)]
pub enum EnqFault {
    /// More bytes of the vector were to be skipped than it has. `size` is how many it has.
    #[error("the vector has only {size} bytes")]
    SkipPast { size: u64 },
    #[error("out of memory")]
    NoMemory,
}
