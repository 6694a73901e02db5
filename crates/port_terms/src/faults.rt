use std::alloc::{AllocError, AllocFailed};
use thiserror::Error;

/// Why a text is not made the name of an atom.
#[derive(Clone, Copy, Debug, PartialEq, Eq, Error)]
pub enum AtomFault {
    /// The text has so many characters, more than 255.
    #[error("a name of {chars} characters")]
    TooLong { chars: u64 },
    #[error("no memory")]
    NoMemory,
}

impl From<AllocError> for AtomFault {
    ghost use Rattle.std.specs.Prelude.{◌≡◌};
    ghost use Rattle.port_terms.specs.declared.faults.AtomFault.TheVariants.{NoMemory};

    ghost from_gives = { λ _ e. e ≡ NoMemory };

    fn from(_e: AllocError) -> AtomFault {
        AtomFault::NoMemory
    }
}

/// Why bytes are no external term: the first fault from the left. Places count from 0, at the version number.
#[derive(Clone, Copy, Debug, PartialEq, Eq, Error)]
pub enum TermFault {
    /// A byte is wanted at the end of the input, which is this place.
    #[error("the input ends at byte {at}")]
    Cut { at: u64 },
    /// The first byte is not 131, or the tag is none of the format.
    #[error("no tag {tag}, at byte {at}")]
    BadTag { at: u64, tag: u8 },
    /// The tag is one of the format that is not served, or the tail of a list is not the empty list.
    #[error("tag {tag} is not served, at byte {at}")]
    NotServed { at: u64, tag: u8 },
    /// The integer there has more than 64 bits, or the tuple, list or binary more than 262,143 items.
    #[error("the term at byte {at} is too big")]
    TooBig { at: u64 },
    /// The atom there is not the UTF-8 that it should be, or has more than 255 characters.
    #[error("the atom at byte {at} has no name")]
    BadText { at: u64 },
    /// The term ended before this place, and there is a byte.
    #[error("the term ends before byte {at}")]
    Trailing { at: u64 },
    /// The term there would have depth 65, or its items would.
    #[error("the term at byte {at} is too deep")]
    TooDeep { at: u64 },
    #[error("no memory")]
    NoMemory,
}

impl From<AllocError> for TermFault {
    ghost use Rattle.std.specs.Prelude.{◌≡◌};
    ghost use Rattle.port_terms.specs.declared.faults.TermFault.TheVariants.{NoMemory};

    ghost from_gives = { λ _ e. e ≡ NoMemory };

    fn from(_e: AllocError) -> TermFault {
        TermFault::NoMemory
    }
}

impl<T: Drop> From<AllocFailed<T>> for TermFault {
    ghost use Rattle.std.specs.Prelude.{◌≡◌};
    ghost use Rattle.port_terms.specs.declared.faults.TermFault.TheVariants.{NoMemory};

    ghost from_gives = { λ _ e. e ≡ NoMemory };

    fn from(_e: AllocFailed<T>) -> TermFault {
        TermFault::NoMemory
    }
}
