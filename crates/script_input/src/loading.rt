ghost use Rattle.std.specs.Prelude.{◌≤◌, IfOk, IfErr};
ghost use Rattle.run_opening.specs.Script.{IsRunnable};
ghost use Rattle.program_io.specs.Files.{files_view, NothingWritten};
ghost use Rattle.script_input.specs.Contents.{FilesEnd};
ghost use Rattle.script_input.specs.Input.{IsInputOf};

use crate::dealing::{deal_steps, rows_of};
use crate::naming::names_of;
use crate::reading::read_contents;
use crate::{RunInput, RunScript, RunWrites};
use outside::Files;
use program_io::InputFault;
use script_plan::{Script, ScriptParts};
use std::alloc::Global;

/// What is run of a script, once the file of each of its steps is read that sends one. They are read in the order of the steps, and have at most 33,554,432 bytes together. No byte of a file is copied.
pub fn load_steps<F: Files>(
    alloc: Global,
    files: &mut F,
    script: Script,
    schedulers: u32,
    workers: u32,
) -> Result<RunInput, InputFault>
    requires some_schedulers { 1 ≤ schedulers }
    requires few_schedulers { schedulers ≤ 16 }
    requires some_workers { 1 ≤ workers }
    requires few_workers { workers ≤ 8 }
    ensures input { IfOk result (IsInputOf (files_view F.told F.answered F.wrote F.reads F.writes files.old)
        (files_view F.told F.answered F.wrote F.reads F.writes files.new) script schedulers workers) }
    ensures runnable { IfOk result (λ input. IsRunnable input.script) }
    ensures fault { IfErr result (FilesEnd script.steps (files_view F.told F.answered F.wrote F.reads F.writes files.old)
        (files_view F.told F.answered F.wrote F.reads F.writes files.new)) }
    ensures files { NothingWritten (files_view F.told F.answered F.wrote F.reads F.writes files.old)
        (files_view F.told F.answered F.wrote F.reads F.writes files.new) }
{
    let names = names_of(alloc, &script)?;
    let contents = read_contents(alloc, files, script.steps())?;
    let ScriptParts {
        processes,
        ports,
        saves,
        journal,
        steps,
    } = script.into_parts();
    let rows = rows_of(steps.as_slice(), contents.as_slice(), ports.as_slice());
    let process_steps = deal_steps(alloc, processes.len(), steps, contents)?;
    Ok(RunInput {
        script: RunScript {
            ports,
            process_steps,
            workers,
            schedulers,
            rows,
        },
        names,
        writes: RunWrites { saves, journal },
    })
}
