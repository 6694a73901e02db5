ghost use Rattle.std.specs.Prelude.{Ok, IfOk, IfErr};
ghost use Rattle.script_plan.specs.Plan.{IsPlan};
ghost use Rattle.program_io.specs.Files.{files_view, HasRead, NothingWritten, ReadEnds};
ghost use Rattle.program_io.specs.Script.{ScriptEnds, ScriptRead};

use crate::InputFault;
use gateway_script::{Piece, read_script};
use outside::{FileFault, Files};
use script_plan::{Script, ScriptFault};
use std::alloc::Global;

/// The most bytes of a script.
const MAX_SCRIPT: u64 = 1_048_576;

/// Reads the file of this name, which this line of the script names, if it has at most `max` bytes.
pub fn read_file<F: Files>(
    alloc: Global,
    files: &mut F,
    name: &str,
    line: u32,
    max: u64,
) -> Result<Vec<u8>, InputFault>
    ensures read { IfOk result (λ bytes. HasRead max (files_view F.told F.answered F.wrote F.reads F.writes files.old)
        (files_view F.told F.answered F.wrote F.reads F.writes files.new) name.now bytes.items) }
    ensures fault { IfErr result (ReadEnds line max (files_view F.told F.answered F.wrote F.reads F.writes files.old)
        (files_view F.told F.answered F.wrote F.reads F.writes files.new) name.now) }
    ensures files { NothingWritten (files_view F.told F.answered F.wrote F.reads F.writes files.old)
        (files_view F.told F.answered F.wrote F.reads F.writes files.new) }
{
    files.read(alloc, name, max).map_err(|fault| match fault {
        FileFault::Failed | FileFault::Missing => InputFault::ReadFault { line },
        FileFault::Over => InputFault::Limit { line },
        FileFault::NoMemory => InputFault::NoMemory,
    })
}

/// Reads the script of this name, of at most 1,048,576 bytes. Its line is 0 in a fault of the read.
pub fn read_run_script<F: Files>(
    alloc: Global,
    files: &mut F,
    name: &str,
) -> Result<Script, InputFault>
    ensures read { IfOk result (λ plan. ScriptRead (files_view F.told F.answered F.wrote F.reads F.writes files.old)
        (files_view F.told F.answered F.wrote F.reads F.writes files.new) name.now (Ok plan)) }
    ensures plan { IfOk result IsPlan }
    ensures fault { IfErr result (ScriptEnds (files_view F.told F.answered F.wrote F.reads F.writes files.old)
        (files_view F.told F.answered F.wrote F.reads F.writes files.new) name.now) }
    ensures files { NothingWritten (files_view F.told F.answered F.wrote F.reads F.writes files.old)
        (files_view F.told F.answered F.wrote F.reads F.writes files.new) }
{
    let bytes = read_file(alloc, files, name, 0, MAX_SCRIPT)?;
    let Ok(text) = Piece::of_vec(bytes) else {
        return Err(InputFault::NoMemory);
    };
    match read_script(alloc, &text) {
        Ok(script) => Ok(script),
        Err(ScriptFault::NoMemory) => Err(InputFault::NoMemory),
        Err(fault) => Err(InputFault::Script { fault }),
    }
}
