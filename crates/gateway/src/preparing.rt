ghost use Rattle.std.specs.Prelude.{ℕ, ◌≤◌, map, length, string_bytes, IfOk, IfErr, OnOk};
ghost use Rattle.script_input.specs.run_opening.Script.{IsRunnable};
ghost use Rattle.script_input.specs.Files.{files_view, NothingRead, NothingWritten};
ghost use Rattle.script_input.specs.Words.{asked, source_of, FromLoad};
ghost use Rattle.script_plan.specs.Plan.{IsPlan, Plan};
ghost use Rattle.gateway.specs.Causes.{AllFound};
ghost use Rattle.gateway.specs.Run.{AskFor, HasInput, SaysPlan};
ghost use Rattle.gateway.specs.Stages.{DriversEnd, InputEnds, SourceEnds};

use driver_hosts::{Driver, Hosted, Lacking, find_drivers};
use no_memory::NoMemory;
use outside::Files;
use run_report::Cause;
use script_input::{
    InputFault, RunInput, RunSource, input_cause, load_steps, read_run_script, run_words,
};
use script_load::load_script;
use script_plan::{PortDecl, Script};
use std::alloc::Global;

/// All that the words ask for, and where its script comes from.
pub struct Prepared<'a> {
    pub source: RunSource<'a>,
    pub input: RunInput,
}

/// Whether there is a driver for each port. None is touched.
fn look_for_drivers<D: Driver>(
    alloc: Global,
    hosts: &[Hosted<D>],
    ports: &[PortDecl],
) -> Result<(), Cause>
    requires { length ports.now ≤ 32 }
    ensures found { OnOk result (AllFound D.kind hosts.now ports.now) }
    ensures lacking { IfErr result (DriversEnd D.kind D.stage D.faults ports.now hosts.now) }
{
    match find_drivers(alloc, hosts, ports) {
        Ok(_) => Ok(()),
        Err(Lacking::NoDriver { at, handed }) => {
            let line = ports[at as usize].line;
            Err(Cause::NoDriver { line, handed })
        }
        Err(Lacking::NoMemory) => Err(Cause::NoMemory),
    }
}

/// The script of this source. No file is touched for that of the load generator.
fn source_script<F: Files>(
    alloc: Global,
    files: &mut F,
    source: RunSource<'_>,
) -> Result<Script, InputFault>
    ensures says { IfOk result (SaysPlan (source_of source.entry) (files_view F.told F.answered F.wrote F.reads F.writes files.old)
        (files_view F.told F.answered F.wrote F.reads F.writes files.new)) }
    ensures plan { IfOk result IsPlan }
    ensures fault { IfErr result (SourceEnds (source_of source.entry) (files_view F.told F.answered F.wrote F.reads F.writes files.old)
        (files_view F.told F.answered F.wrote F.reads F.writes files.new)) }
    ensures files { NothingWritten (files_view F.told F.answered F.wrote F.reads F.writes files.old)
        (files_view F.told F.answered F.wrote F.reads F.writes files.new) }
{
    match source {
        RunSource::File { name } => read_run_script(alloc, files, name),
        RunSource::Load { number } => match load_script(alloc, number) {
            Ok(script) => Ok(script),
            Err(NoMemory) => Err(InputFault::NoMemory),
        },
    }
}

/// Gets all that the words ask for: the script, and where there is a driver for each of its ports, the files of its steps. A load reads no file.
pub fn prepare<'a, D: Driver, F: Files>(
    alloc: Global,
    words: &'a [String],
    files: &mut F,
    hosts: &[Hosted<D>],
) -> Result<Prepared<'a>, Cause>
    ensures input { IfOk result (λ p. (plan : Plan) × HasInput (asked (map (λ w. string_bytes w) words.now)) (files_view F.told F.answered F.wrote F.reads F.writes files.old)
        (files_view F.told F.answered F.wrote F.reads F.writes files.new) plan p.input) }
    ensures source { IfOk result (λ p. AskFor (asked (map (λ w. string_bytes w) words.now)) (source_of p.source)) }
    ensures runnable { IfOk result (λ p. IsRunnable p.input.script) }
    ensures cause { IfErr result (InputEnds D.kind D.stage D.faults (asked (map (λ w. string_bytes w) words.now)) hosts.now
        (files_view F.told F.answered F.wrote F.reads F.writes files.old) (files_view F.told F.answered F.wrote F.reads F.writes files.new)) }
    ensures files { NothingWritten (files_view F.told F.answered F.wrote F.reads F.writes files.old)
        (files_view F.told F.answered F.wrote F.reads F.writes files.new) }
    ensures load { (number : ℕ) → AskFor (asked (map (λ w. string_bytes w) words.now)) (FromLoad number)
        → NothingRead (files_view F.told F.answered F.wrote F.reads F.writes files.old) (files_view F.told F.answered F.wrote F.reads F.writes files.new) }
{
    let asked = match run_words(words) {
        Ok(asked) => asked,
        Err(at) => return Err(Cause::Usage { at }),
    };
    let script = match source_script(alloc, files, asked.source) {
        Ok(script) => script,
        Err(fault) => return Err(input_cause(fault)),
    };
    look_for_drivers(alloc, hosts, script.ports())?;
    match load_steps(alloc, files, script, asked.schedulers, asked.workers) {
        Ok(input) => Ok(Prepared {
            source: asked.source,
            input,
        }),
        Err(fault) => Err(input_cause(fault)),
    }
}
