use no_memory::NoMemory;
use std::alloc::{AllocError, AllocFailed};
use thiserror::Error;

/// Why a text isn't read as a journal. `at` is the first byte of the first line that isn't in the grammar, from 0, or the length
/// of the text where a line is wanting. A last line without byte 10 isn't in the grammar.
#[derive(Clone, Copy, Debug, PartialEq, Eq, Error)]
pub enum JournalFault {
    #[error("not a journal at byte {at}")]
    NotAJournal { at: u64 },
    #[error("no memory")]
    NoMemory,
}

/// Why a part of a line isn't read.
#[derive(Clone, Copy, Debug, PartialEq, Eq)]
pub(crate) enum LinePartFault {
    /// It isn't in the grammar.
    Bad,
    NoMemory,
}

impl From<NoMemory> for LinePartFault {
    ghost use Rattle.std.specs.Prelude.{◌≡◌};
    ghost use Rattle.journal_text.specs.declared.fault.LinePartFault.TheVariants as fault;

    ghost from_gives = { λ _ f. f ≡ fault.NoMemory };

    fn from(_: NoMemory) -> LinePartFault {
        LinePartFault::NoMemory
    }
}

impl From<AllocError> for LinePartFault {
    ghost use Rattle.std.specs.Prelude.{◌≡◌};
    ghost use Rattle.journal_text.specs.declared.fault.LinePartFault.TheVariants as fault;

    ghost from_gives = { λ _ f. f ≡ fault.NoMemory };

    fn from(_: AllocError) -> LinePartFault {
        LinePartFault::NoMemory
    }
}

impl<T: Drop> From<AllocFailed<T>> for LinePartFault {
    ghost use Rattle.std.specs.Prelude.{◌≡◌};
    ghost use Rattle.journal_text.specs.declared.fault.LinePartFault.TheVariants as fault;

    ghost from_gives = { λ _ f. f ≡ fault.NoMemory };

    fn from(_: AllocFailed<T>) -> LinePartFault {
        LinePartFault::NoMemory
    }
}

/// Why a text isn't read.
#[derive(Clone, Copy, Debug, PartialEq, Eq)]
pub(crate) enum TextFault {
    /// How many bytes there are from the first line on that isn't in the grammar.
    Bad { left: usize },
    NoMemory,
}

impl From<AllocError> for TextFault {
    ghost use Rattle.std.specs.Prelude.{◌≡◌};
    ghost use Rattle.journal_text.specs.declared.fault.TextFault.TheVariants as fault;

    ghost from_gives = { λ _ f. f ≡ fault.NoMemory };

    fn from(_: AllocError) -> TextFault {
        TextFault::NoMemory
    }
}

impl<T: Drop> From<AllocFailed<T>> for TextFault {
    ghost use Rattle.std.specs.Prelude.{◌≡◌};
    ghost use Rattle.journal_text.specs.declared.fault.TextFault.TheVariants as fault;

    ghost from_gives = { λ _ f. f ≡ fault.NoMemory };

    fn from(_: AllocFailed<T>) -> TextFault {
        TextFault::NoMemory
    }
}
