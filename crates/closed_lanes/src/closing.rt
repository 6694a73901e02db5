ghost use Rattle.std.specs.Prelude.{◌≡◌, ◌≢◌, ◌<◌, List, length, map, All, AllPairs, IfOk};
ghost use Rattle.closed_ports.specs.Closed.{HaveComeBack};
ghost use Rattle.run_opening.specs.driver_hosts.port_body.Body.{name_of};
ghost use Rattle.run_end.specs.Ran.{RanProcess};
ghost use Rattle.run_opening.specs.Setting.{Setting, IsSetting, AreNamedIn};
ghost use Rattle.run_opening.specs.Jobs.{HaveRunIn};
ghost use Rattle.closed_lanes.specs.Closed.{AreClosedIn, GiveBack};

use crate::columns::columns_of;
use crate::parting::part_ports;
use async_jobs::WorkItem;
use closed_ports::{
    Body, Driver, Hosted, accepted_signals_have_rows, close_ports, closed_ports_are_lawful,
};
use no_memory::NoMemory;
use port_config::Config;
use port_lanes::Parcel;
use port_mail::Mailboxes;
use port_model::Journal;
use port_words::busy::PortSeat;
use run_lanes::empty_lanes;
use run_opening::{WorkerLeft, take_back};
use std::alloc::Global;
use std::sync::Wait;
use task_queue::SendEnd;

/// What the jobs of a run give back of its lanes. Each of the processes, the poller and the workers has an end of the lane of each port, in the order of ports; `finish` are the last ends of the
/// workers' lanes. Processes and workers stand by their numbers, from 0.
#[derive(Drop)]
pub struct LaneEnds {
    pub processes: Vec<Vec<SendEnd<Parcel>>>,
    pub poller: Vec<SendEnd<Parcel>>,
    pub workers: Vec<WorkerLeft>,
    pub finish: Vec<SendEnd<WorkItem>>,
}

/// What a port leaves whose lane is closed: its options, the events of its program's output and input, 0 and 0 without one, its history, its ends of the mailboxes, by the numbers of the processes, and the
/// seat of its words.
#[derive(Drop)]
pub struct ClosedPort {
    pub config: Config,
    pub events: (u32, u32),
    pub journal: Journal,
    pub mailboxes: Mailboxes,
    pub seat: PortSeat,
}

/// Closes the lanes of a run that nobody stopped, and puts the drivers of its ports back at their places, also where memory is wanting. Answers what the ports leave, in their order.
pub fn close_lanes<D: Driver, R: Wait>(
    rt: &R,
    alloc: Global,
    hosts: &mut Vec<Hosted<D>>,
    places: &[usize],
    bodies: Vec<Body<D>>,
    ends: LaneEnds,
) -> Result<Vec<ClosedPort>, NoMemory>
    requires len { length places.now ≡ length bodies.items }
    requires within { All (λ at. at < length hosts.old.items) places.now }
    requires different { AllPairs (λ at later. at ≢ later) places.now }
    requires ran { (s : Setting) × (processes : List RanProcess) × IsSetting s × AreNamedIn s (map name_of bodies.items) × HaveRunIn s processes × GiveBack s processes ends }
    ensures returned { HaveComeBack D.kind D.stage D.faults D.own D.program bodies.items places.now hosts.old.items hosts.new.items }
    ensures closed { (s : Setting) (processes : List RanProcess) → IsSetting s → AreNamedIn s (map name_of bodies.items) → HaveRunIn s processes → GiveBack s processes ends
        → IfOk result (λ ports. AreClosedIn D.kind D.faults D.own D.program s processes ends.poller.items (map name_of bodies.items) places.now ports.items hosts.new.items) }
{
    let LaneEnds {
        processes,
        poller,
        workers,
        finish,
    } = ends;
    let Ok((columns, mut lanes)) = columns_of(alloc, processes, poller, workers) else {
        // What the ports leave is given up.
        let _ = take_back(alloc, hosts, places, bodies);
        return Err(NoMemory);
    };
    let left = close_ports(rt, alloc, hosts, places, bodies, columns)?;
    let (ports, pools) = part_ports(alloc, hosts.as_slice(), places, left)?;
    empty_lanes(rt, alloc, &mut lanes, pools, finish)?;
    closed_ports_are_lawful();
    accepted_signals_have_rows();
    Ok(ports)
}
