ghost use Rattle.std.specs.Prelude.{◌≡◌, map, string_bytes, All};
ghost use Rattle.std.specs.Option.{option_map};
ghost use Rattle.driver_hosts.specs.Hosts.{IsUnused};
ghost use Rattle.run_laws.specs.run_output.Ends.{sink_view};
ghost use Rattle.run_report.specs.Cause.{status_of};
ghost use Rattle.script_input.specs.Files.{files_view};
ghost use Rattle.script_input.specs.Words.{asked};
ghost use Rattle.gateway.specs.Causes.{Ends, PollEnds};
ghost use Rattle.gateway.specs.Stages.{run_cause};

use crate::preparing::{Prepared, prepare};
use crate::writing::{Output, Written, write_left};
use driver_hosts::{Driver, Hosted};
use outside::{Files, Gate, PollSet, Sink};
use run_laws::{
    RunEnd, RunFault, commands_are_counted_in_every_run, commands_are_echoed,
    journals_are_replayed_in_every_run, output_is_saved_in_every_run,
    programs_are_served_in_every_run, run_script, summary_is_of_number,
};
use run_report::{Cause, Report};
use script_input::RunInput;
use std::alloc::Global;
use std::sync::Wait;
use std::thread::Threads;

/// How a run ended: the status and its cause, the report where the run was made and memory was found to report it, the drivers that were handed in, in their order, and the poll set, which may be gone
/// only where memory was wanting.
#[derive(Drop)]
pub struct CallEnd<P, D = Box<dyn Driver + Send>> {
    pub status: u8,
    pub cause: Cause,
    pub report: Option<Report>,
    pub drivers: Vec<Hosted<D>>,
    pub poll: Option<P>,
}

/// The cause of a run that wasn't made.
fn run_cause(fault: RunFault) -> Cause
    ensures { result ≡ run_cause fault }
{
    match fault {
        RunFault::NoDriver { line, handed } => Cause::NoDriver { line, handed },
        RunFault::StartRefused { line, refusal } => Cause::StartRefused { line, refusal },
        RunFault::PollFault => Cause::PollFault,
        RunFault::NoMemory => Cause::NoMemory,
    }
}

impl<P, D> CallEnd<P, D> {
    /// The end of a run that reports nothing.
    fn without_report(cause: Cause, drivers: Vec<Hosted<D>>, poll: Option<P>) -> CallEnd<P, D>
        ensures { result ≡ record { status = status_of cause; cause = cause; report = None; drivers = drivers; poll = poll } }
    {
        CallEnd {
            status: cause.status(),
            cause,
            report: None,
            drivers,
            poll,
        }
    }
}

/// What `gateway` does, over drivers of any one type.
pub fn run_hosted<
    D: Driver + Send,
    F: Files,
    K: Sink,
    P: PollSet + Drop + Send,
    G: Gate + Sync,
    R: Threads + Wait + Sync,
>(
    rt: &R,
    alloc: Global,
    words: &[String],
    files: &mut F,
    out: &mut K,
    drivers: Vec<Hosted<D>>,
    poll: P,
    gate: &G,
) -> CallEnd<P, D>
    requires { All (IsUnused D.stage) drivers.items }
    ensures status { result.status ≡ status_of result.cause }
    ensures run { Ends D.kind D.stage D.faults D.own D.program
        (record {
          words = asked (map (λ w. string_bytes w) words.now);
          files = files_view F.told F.answered F.wrote F.reads F.writes files.old;
          files_after = files_view F.told F.answered F.wrote F.reads F.writes files.new;
          sink = sink_view K.written K.took K.faults out.old;
          sink_after = sink_view K.written K.took K.faults out.new;
          hosts = drivers.items;
          hosts_after = result.drivers.items;
          waits = P.faults poll;
          waits_after = option_map P.faults result.poll;
          answered = P.answered poll;
          answered_after = option_map P.answered result.poll;
        }) result.cause result.report }
    ensures poll { PollEnds P.faults poll result.cause result.poll }
{
    let mut drivers = drivers;
    let Prepared { source, input } = match prepare(alloc, words, files, drivers.as_slice()) {
        Ok(prepared) => prepared,
        Err(cause) => return CallEnd::without_report(cause, drivers, Some(poll)),
    };
    let RunInput {
        script,
        names,
        writes,
    } = input;
    // What holds of each run, by laws: these calls do nothing.
    commands_are_counted_in_every_run::<D>();
    commands_are_echoed::<D>();
    journals_are_replayed_in_every_run::<D>();
    output_is_saved_in_every_run::<D>();
    programs_are_served_in_every_run::<D>();
    summary_is_of_number::<D>();
    let RunEnd { ran, poll } = run_script(rt, alloc, gate, &mut drivers, script, poll);
    let left = match ran {
        Ok(left) => left,
        Err(fault) => return CallEnd::without_report(run_cause(fault), drivers, poll),
    };
    let output = Output { source, writes };
    let Written { cause, report } = write_left(alloc, files, out, names, &output, left);
    CallEnd {
        status: cause.status(),
        cause,
        report,
        drivers,
        poll,
    }
}

/// Runs what the words ask for: `run SCRIPT [SCHEDULERS [WORKERS]]` or `load NUMBER [SCHEDULERS [WORKERS]]`. They exclude the program's own name.
///
/// The script is read from `files` and has at most 1,048,576 bytes, and so are the files that its steps send, of 33,554,432 bytes together. Its processes, its ports and their jobs run on threads, and
/// each driver serves at most one port, the first one that has its name and no driver yet. What is saved and the journal are written to `files`, and then the report to `out`.
///
/// A load runs the script that the load generator makes of its number in the same way. It touches no file, so no script of it is faulty, unread or too large, and its summary is written to `out` in
/// place of the report.
///
/// The call may wait, and what is promised holds if it returns, whatever the schedule.
///
/// Whatever the status, each driver comes back in its place: fresh or stopped, of its kind, with no fewer faults.
pub fn gateway<
    F: Files,
    K: Sink,
    P: PollSet + Drop + Send,
    G: Gate + Sync,
    R: Threads + Wait + Sync,
>(
    rt: &R,
    alloc: Global,
    words: &[String],
    files: &mut F,
    out: &mut K,
    drivers: Vec<Hosted>,
    poll: P,
    gate: &G,
) -> CallEnd<P>
    requires { All (IsUnused (λ b. stage b)) drivers.items }
    ensures status { result.status ≡ status_of result.cause }
    ensures run { Ends (λ b. kind b) (λ b. stage b) (λ b. (Driver-box b).faults b.value) (λ b. own b) (λ b. (Driver-box b).program b.value)
        (record {
          words = asked (map (λ w. string_bytes w) words.now);
          files = files_view F.told F.answered F.wrote F.reads F.writes files.old;
          files_after = files_view F.told F.answered F.wrote F.reads F.writes files.new;
          sink = sink_view K.written K.took K.faults out.old;
          sink_after = sink_view K.written K.took K.faults out.new;
          hosts = drivers.items;
          hosts_after = result.drivers.items;
          waits = P.faults poll;
          waits_after = option_map P.faults result.poll;
          answered = P.answered poll;
          answered_after = option_map P.answered result.poll;
        }) result.cause result.report }
    ensures poll { PollEnds P.faults poll result.cause result.poll }
{
    run_hosted(rt, alloc, words, files, out, drivers, poll, gate)
}
