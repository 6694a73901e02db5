ghost use Rattle.std.specs.Prelude.{◌≡◌, All, Ok, IfOk, IfErr, MatchResult};
ghost use Rattle.std.specs.Option.{option_map};
ghost use Rattle.driver_hosts.specs.Back.{AllCameBack};
ghost use Rattle.driver_hosts.specs.Hosts.{IsUnused};
ghost use Rattle.seated_script.specs.run_opening.Script.{IsRunnable};
ghost use Rattle.script_run.specs.declared.running.RunFault.TheVariants as fault;
ghost use Rattle.script_run.specs.Ends.{IsNotRun, PollIsBack, stopped, unopened};
ghost use Rattle.script_run.specs.Ran.{HasRun};

use crate::bodies::run_ports;
use crate::closing::close_run;
use driver_hosts::take_back;
use ended_jobs::RunOver;
use no_memory::NoMemory;
use outside::{Gate, PollSet};
use port_config::Config;
use port_lanes::each_sender_has_an_end;
use port_model::{Journal, Mail};
use process_receipts::Receipts;
use seated_script::{
    Driver, Hosted, OpenFault, RunScript, SeatedScript, StartRefusal, Stop, Unseated, calls_tell,
    seat_script, waits_are_shown,
};
use std::alloc::Global;
use std::sync::Wait;
use std::thread::Threads;
use suspended_calls::{listed_calls_are_in_order, suspended_calls_are_listed};

/// What a port leaves of a run: its options, the events of its program's output and input, 0 and 0 without one, and the history of its driver.
#[derive(Drop)]
pub struct PortLeft {
    pub config: Config,
    pub events: (u32, u32),
    pub journal: Journal,
}

/// What a process leaves of a run: a receipt for each of its calls, in their order, the last ones of which tell the ports of its end, and its mail, in the order in which it came.
#[derive(Drop)]
pub struct ProcessLeft {
    pub receipts: Receipts,
    pub mails: Vec<Mail>,
}

/// What a run of a script leaves. Ports and processes stand by their numbers, from 0.
#[derive(Drop)]
pub struct ScriptRan {
    pub ports: Vec<PortLeft>,
    pub processes: Vec<ProcessLeft>,
}

/// Why a run of a script isn't made. Lines count from 1.
#[derive(Clone, Copy, Debug, PartialEq, Eq)]
pub enum RunFault {
    /// Earlier ports got all drivers that have the name that the port on this line wants; `handed` is how many these are.
    NoDriver { line: u32, handed: u64 },
    /// The driver of the port on this line refused to start. It isn't for want of memory.
    StartRefused { line: u32, refusal: StartRefusal },
    /// A wait of the poll set failed.
    PollFault,
    NoMemory,
}

/// How a run of a script ended, and its poll set, which may be gone only where memory was wanting.
#[derive(Drop)]
pub struct RunEnd<S> {
    pub ran: Result<ScriptRan, RunFault>,
    pub poll: Option<S>,
}

fn unopened(fault: OpenFault) -> RunFault
    ensures { result ≡ unopened fault }
{
    match fault {
        OpenFault::NoDriver { line, handed } => RunFault::NoDriver { line, handed },
        OpenFault::StartRefused { line, refusal } => RunFault::StartRefused { line, refusal },
        OpenFault::NoMemory => RunFault::NoMemory,
    }
}

fn stopped(stop: Stop) -> RunFault
    ensures { result ≡ stopped stop }
{
    match stop {
        Stop::PollFault => RunFault::PollFault,
        Stop::NoMemory => RunFault::NoMemory,
    }
}

/// A run for which memory was found, or its want.
fn made(ran: Result<ScriptRan, NoMemory>) -> Result<ScriptRan, RunFault>
    ensures { MatchResult result (λ r. ran ≡ Ok r) (λ f. f ≡ fault.NoMemory) }
{
    match ran {
        Ok(ran) => Ok(ran),
        Err(NoMemory) => Err(RunFault::NoMemory),
    }
}

/// Runs a script on threads: its schedulers, each of its processes, its workers and its poller, beside each other. Each port is served by the first driver of its name that no earlier port got.
///
/// Whatever becomes of the run, each driver is back in its place: stopped or fresh, of the kind that it had, and with no fewer faults. What is promised holds for every schedule, if the call returns: it
/// waits for its processes, and these for their ports.
pub fn run_script<
    D: Driver + Send,
    S: PollSet + Drop + Send,
    G: Gate + Sync,
    R: Threads + Wait + Sync,
>(
    rt: &R,
    alloc: Global,
    gate: &G,
    hosts: &mut Vec<Hosted<D>>,
    script: RunScript,
    poll: S,
) -> RunEnd<S>
    requires runnable { IsRunnable script }
    requires unused { All (IsUnused D.stage) hosts.old.items }
    ensures ran { IfOk result.ran (HasRun D.kind D.stage D.faults D.own D.program script hosts.old.items hosts.new.items (S.answered poll) (option_map S.answered result.poll)) }
    ensures fault { IfErr result.ran (IsNotRun D.kind D.stage D.faults script.ports.items hosts.old.items hosts.new.items) }
    ensures back { AllCameBack D.kind D.stage D.faults hosts.old.items hosts.new.items }
    ensures poll { PollIsBack S.faults poll result.ran result.poll }
{
    let SeatedScript { run, places, ended } = match seat_script(rt, alloc, hosts, script, poll) {
        Ok(seated) => seated,
        Err(Unseated { fault, poll }) => return RunEnd {
            ran: Err(unopened(fault)),
            poll,
        },
    };
    let RunOver { bodies, jobs } = run_ports(rt, gate, run, ended);
    let jobs = match jobs {
        Ok(jobs) => jobs,
        Err((stop, poll)) => {
            // What the ports leave is given up.
            let _ = take_back(alloc, hosts, places.as_slice(), bodies);
            return RunEnd {
                ran: Err(stopped(stop)),
                poll: Some(poll),
            };
        }
    };
    each_sender_has_an_end();
    calls_tell();
    waits_are_shown();
    listed_calls_are_in_order();
    suspended_calls_are_listed();
    let (ran, poll) = close_run(rt, alloc, hosts, places.as_slice(), bodies, jobs);
    RunEnd {
        ran: made(ran),
        poll: Some(poll),
    }
}
