ghost use Rattle.std.specs.Prelude.{◌≡◌};
ghost use Rattle.program_io.specs.Cause.{input_cause};

use crate::InputFault;
use run_report::Cause;

/// The cause with which a command ends whose input wasn't read.
pub fn input_cause(fault: InputFault) -> Cause
    ensures { result ≡ input_cause fault }
{
    match fault {
        InputFault::Script { fault } => Cause::Script { fault },
        InputFault::ReadFault { line } => Cause::ReadFault { line },
        InputFault::Limit { line } => Cause::Limit { line },
        InputFault::NoMemory => Cause::NoMemory,
    }
}
