ghost use Rattle.std.specs.Prelude.{◌≡◌};
ghost use Rattle.gateway_script.specs.LineFault.{fault_at};

use no_memory::NoMemory;
use script_plan::ScriptFault;
use script_text::PartFault;
use std::alloc::AllocFailed;

/// Why a line isn't taken in.
#[derive(Clone, Copy, Debug)]
pub(crate) enum LineFault {
    Bad,
    UnknownName,
    Repeated,
    Limit(u32),
    NoMemory,
}

impl LineFault {
    /// The fault, as the script's at a line of this number.
    pub(crate) fn at(self, line: u32) -> ScriptFault
        ensures { result ≡ fault_at line self }
    {
        match self {
            LineFault::Bad => ScriptFault::BadLine { line },
            LineFault::UnknownName => ScriptFault::UnknownName { line },
            LineFault::Repeated => ScriptFault::Repeated { line },
            LineFault::Limit(which) => ScriptFault::Limit { line, which },
            LineFault::NoMemory => ScriptFault::NoMemory,
        }
    }
}

impl From<NoMemory> for LineFault {
    ghost use Rattle.gateway_script.specs.declared.line_fault.LineFault.TheVariants as fault;

    ghost from_gives = { λ _ f. f ≡ fault.NoMemory };

    fn from(_: NoMemory) -> LineFault {
        LineFault::NoMemory
    }
}

impl<T: Drop> From<AllocFailed<T>> for LineFault {
    ghost use Rattle.gateway_script.specs.declared.line_fault.LineFault.TheVariants as fault;

    ghost from_gives = { λ _ f. f ≡ fault.NoMemory };

    fn from(_: AllocFailed<T>) -> LineFault {
        LineFault::NoMemory
    }
}

impl From<PartFault> for LineFault {
    ghost use Rattle.gateway_script.specs.LineFault.{of_part};

    ghost from_gives = { λ part f. f ≡ of_part part };

    fn from(fault: PartFault) -> LineFault {
        match fault {
            PartFault::Bad => LineFault::Bad,
            PartFault::NoMemory => LineFault::NoMemory,
        }
    }
}
