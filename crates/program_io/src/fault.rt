ghost use Rattle.std.specs.Prelude.{◌≡◌};

use no_memory::NoMemory;
use script_plan::ScriptFault;

/// Why an input wasn't read. Lines count from 1, and 0 stands for the script as a whole.
#[derive(Clone, Copy, Debug, PartialEq, Eq)]
pub enum InputFault {
    /// The text is not a script. It isn't for want of memory.
    Script { fault: ScriptFault },
    /// The script, or the file that this line names, was not read.
    ReadFault { line: u32 },
    /// The script, or the files up to that of this line, are larger than is allowed.
    Limit { line: u32 },
    NoMemory,
}

impl From<NoMemory> for InputFault {
    ghost use Rattle.program_io.specs.declared.fault.InputFault.TheVariants as fault;

    ghost from_gives = { λ _ f. f ≡ fault.NoMemory };

    fn from(_: NoMemory) -> InputFault {
        InputFault::NoMemory
    }
}
