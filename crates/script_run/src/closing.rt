//! The end of a run that nobody stopped: its lanes are closed, its mail is taken, and what it leaves is put together.
ghost use Rattle.std.specs.Prelude.{◌≡◌, ◌≢◌, ◌<◌, List, length, map, All, AllPairs, IfOk};
ghost use Rattle.closed_lanes.specs.closed_ports.Closed.{HaveComeBack};
ghost use Rattle.port_body.specs.Body.{BodyName, name_of};
ghost use Rattle.seated_script.specs.run_opening.run_end.Ran.{RanProcess};
ghost use Rattle.seated_script.specs.run_opening.run_seats.declared.plans.ProcessPlan.{ProcessPlan as Plan};
ghost use Rattle.seated_script.specs.run_opening.Setting.{Setting};
ghost use Rattle.script_run.specs.Left.{AreJobParts, CanGather, HasEndedIn, HaveJobParts, IsGathered, IsLeft};
ghost use Rattle.script_run.specs.Parted.{ran_processes};

use crate::parting::{PartedPorts, ProcessParts, part_ports, part_processes, processes_left};
use crate::running::ScriptRan;
use async_jobs::WorkItem;
use closed_lanes::{ClosedPort, LaneEnds, ProcessPeers, close_lanes, join_peers};
use driver_hosts::{Body, take_back};
use no_memory::NoMemory;
use outside::PollSet;
use port_lanes::Parcel;
use process_receipts::Receipts;
use seated_script::{
    Driver, EndedJobs, EndedProcess, FinishLeft, Hosted, PollerLeft, Watch, WorkerLeft,
};
use std::alloc::Global;
use std::sync::Wait;
use task_queue::SendEnd;

/// Puts together what the ports and the processes leave.
fn gather<R: Wait>(
    rt: &R,
    alloc: Global,
    closed: Vec<ClosedPort>,
    receipts: Vec<Receipts>,
    peers: ProcessPeers,
) -> Result<ScriptRan, NoMemory>
    requires { (s : Setting) × (names : List BodyName) × (ran : List RanProcess) × CanGather s names ran closed.items receipts.items peers }
    ensures { (s : Setting) (names : List BodyName) (ran : List RanProcess) → CanGather s names ran closed.items receipts.items peers → IfOk result (IsGathered s ran closed.items) }
{
    let PartedPorts {
        left: ports,
        peers: port_peers,
    } = part_ports(alloc, closed)?;
    let mails = join_peers(rt, alloc, port_peers, peers)?;
    let processes = processes_left(alloc, receipts, mails)?;
    Ok(ScriptRan { ports, processes })
}

/// What the jobs of a run leave, by those who need it: the ends of its lanes, the receipts of the processes, and what ties these to the ports.
#[derive(Drop)]
struct PartedJobs {
    ends: LaneEnds,
    receipts: Vec<Receipts>,
    peers: ProcessPeers,
}

/// Closes the lanes, and puts together what is left. The drivers are back at their places, also where memory is wanting.
fn close_parts<D: Driver, R: Wait>(
    rt: &R,
    alloc: Global,
    hosts: &mut Vec<Hosted<D>>,
    places: &[usize],
    bodies: Vec<Body<D>>,
    parts: PartedJobs,
) -> Result<ScriptRan, NoMemory>
    requires len { length places.now ≡ length bodies.items }
    requires within { All (λ at. at < length hosts.old.items) places.now }
    requires different { AllPairs (λ at later. at ≢ later) places.now }
    requires ended { (s : Setting) × (ran : List RanProcess) × HaveJobParts s (map name_of bodies.items) ran parts.ends parts.receipts.items parts.peers }
    ensures returned { HaveComeBack D.kind D.stage D.faults D.own D.program bodies.items places.now hosts.old.items hosts.new.items }
    ensures left { (s : Setting) (ran : List RanProcess) → HaveJobParts s (map name_of bodies.items) ran parts.ends parts.receipts.items parts.peers
        → IfOk result (IsLeft D.kind D.faults D.own D.program s ran parts.ends.poller.items (map name_of bodies.items) places.now hosts.new.items) }
{
    let PartedJobs {
        ends,
        receipts,
        peers,
    } = parts;
    let closed = close_lanes(rt, alloc, hosts, places, bodies, ends)?;
    let ran = gather(rt, alloc, closed, receipts, peers)?;
    Ok(ran)
}

/// The parts of what the jobs of a run leave.
fn job_parts(
    alloc: Global,
    processes: Vec<EndedProcess>,
    poller: Vec<SendEnd<Parcel>>,
    workers: Vec<WorkerLeft>,
    finish: Vec<SendEnd<WorkItem>>,
) -> Result<PartedJobs, NoMemory>
    ensures { IfOk result (λ parts. AreJobParts processes.items poller.items workers.items finish.items parts.ends parts.receipts.items parts.peers) }
{
    let ProcessParts {
        lanes,
        receipts,
        peers,
    } = part_processes(alloc, processes)?;
    let ends = LaneEnds {
        processes: lanes,
        poller,
        workers,
        finish,
    };
    Ok(PartedJobs {
        ends,
        receipts,
        peers,
    })
}

/// Closes a run that nobody stopped: its ports come to rest, and their drivers are back at their places, also where memory is wanting.
pub(crate) fn close_run<D: Driver, S: PollSet + Drop, R: Wait>(
    rt: &R,
    alloc: Global,
    hosts: &mut Vec<Hosted<D>>,
    places: &[usize],
    bodies: Vec<Body<D>>,
    jobs: EndedJobs<S>,
) -> (Result<ScriptRan, NoMemory>, S)
    requires len { length places.now ≡ length bodies.items }
    requires within { All (λ at. at < length hosts.old.items) places.now }
    requires different { AllPairs (λ at later. at ≢ later) places.now }
    requires ended { (s : Setting) × (plans : List Plan) × (poll : S) × HasEndedIn S.faults S.answered s plans poll (map name_of bodies.items) jobs }
    ensures returned { HaveComeBack D.kind D.stage D.faults D.own D.program bodies.items places.now hosts.old.items hosts.new.items }
    ensures left { (s : Setting) (plans : List Plan) (poll : S) → HasEndedIn S.faults S.answered s plans poll (map name_of bodies.items) jobs
        → IfOk result.0 (IsLeft D.kind D.faults D.own D.program s (ran_processes plans jobs.processes.items) jobs.poller.lanes.items (map name_of bodies.items) places.now hosts.new.items) }
    ensures poll { result.1 ≡ jobs.poller.watch.poll }
{
    let EndedJobs {
        processes,
        workers,
        poller,
        finish,
    } = jobs;
    let PollerLeft { watch, lanes, .. } = poller;
    let Watch { poll, .. } = watch;
    let FinishLeft { workers: last, .. } = finish;
    let Ok(parts) = job_parts(alloc, processes, lanes, workers, last) else {
        // What the ports leave is given up.
        let _ = take_back(alloc, hosts, places, bodies);
        return (Err(NoMemory), poll);
    };
    let ran = close_parts(rt, alloc, hosts, places, bodies, parts);
    (ran, poll)
}
