ghost use Rattle.std.specs.Prelude.{◌≡◌};

use no_memory::NoMemory;
use thiserror::Error;

/// Why a text is not a script. Lines count from 1.
#[derive(Clone, Copy, Debug, PartialEq, Eq, Error)]
pub enum ScriptFault {
    /// A line that has no form, a limit or a size out of its range, an option that the driver doesn't have, a step of a process that has died, or the end of a
    /// monitor that there isn't.
    #[error("line {line} has no form")]
    BadLine { line: u32 },
    /// A name that no line above declares, or that names a port where a process belongs or the reverse.
    #[error("a name of line {line} is not declared")]
    UnknownName { line: u32 },
    /// A name that is declared already, an option or a framing that stands twice, a second journal, a second save of the same data, or a second use of a file that
    /// is written.
    #[error("what line {line} says was said already")]
    Repeated { line: u32 },
    /// More than 32 processes (1), 32 ports (2) or 131,072 steps (3).
    #[error("line {line} is beyond limit {which}")]
    Limit { line: u32, which: u32 },
    /// No memory was found, or the text has 4,294,967,296 lines or more.
    #[error("no memory")]
    NoMemory,
}

impl From<NoMemory> for ScriptFault {
    ghost use Rattle.script_plan.specs.declared.fault.ScriptFault.TheVariants as fault;

    ghost from_gives = { λ _ f. f ≡ fault.NoMemory };

    fn from(_: NoMemory) -> ScriptFault {
        ScriptFault::NoMemory
    }
}
