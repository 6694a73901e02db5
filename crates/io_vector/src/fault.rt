use std::alloc::AllocError;
use thiserror::Error;

/// More bytes were to be skipped than there are. `size` is how many there are.
#[derive(Clone, Copy, Debug, PartialEq, Eq, Error)]
#[error("the vector has only {size} bytes")]
pub struct Past {
    pub size: u64,
}

/// Why there is no prefix.
#[derive(Clone, Copy, Debug, PartialEq, Eq, Error)]
pub enum PrefixFault {
    /// A prefix longer than the vector, of `size` bytes, was asked for.
    #[error("the vector has only {size} bytes")]
    Past { size: u64 },
    #[error("out of memory")]
    NoMemory,
}
