use io_vector::NoMemory;
use std::alloc::{AllocError, AllocFailed};
use thiserror::Error;

/// Why bytes have no frame.
#[derive(Clone, Copy, Debug, PartialEq, Eq, Error)]
pub enum FrameFault {
    /// The bytes are so many, and the length doesn't fit the mode's bytes of length.
    #[error("{len} bytes are too many for the mode's frames")]
    TooLong { len: u64 },
    #[error("out of memory")]
    NoMemory,
}

/// Why a chunk has no messages.
#[derive(Clone, Copy, Debug, PartialEq, Eq, Error)]
pub enum UnframeFault {
    /// A header tells so many bytes, which are more than 262,143.
    #[error("a frame of {len} bytes is too long")]
    Oversize { len: u64 },
    #[error("out of memory")]
    NoMemory,
}

impl From<NoMemory> for UnframeFault {
    ghost use Rattle.std.specs.Prelude.{◌≡◌};
    ghost use Rattle.packet_framing.specs.declared.fault.UnframeFault.TheVariants.{NoMemory};

    ghost from_gives = { λ _ fault. fault ≡ NoMemory };

    fn from(_: NoMemory) -> UnframeFault {
        UnframeFault::NoMemory
    }
}

impl From<AllocError> for UnframeFault {
    ghost use Rattle.std.specs.Prelude.{◌≡◌};
    ghost use Rattle.packet_framing.specs.declared.fault.UnframeFault.TheVariants.{NoMemory};

    ghost from_gives = { λ _ fault. fault ≡ NoMemory };

    fn from(_: AllocError) -> UnframeFault {
        UnframeFault::NoMemory
    }
}

impl<T: Drop> From<AllocFailed<T>> for UnframeFault {
    ghost use Rattle.std.specs.Prelude.{◌≡◌};
    ghost use Rattle.packet_framing.specs.declared.fault.UnframeFault.TheVariants.{NoMemory};

    ghost from_gives = { λ _ fault. fault ≡ NoMemory };

    fn from(_: AllocFailed<T>) -> UnframeFault {
        UnframeFault::NoMemory
    }
}
