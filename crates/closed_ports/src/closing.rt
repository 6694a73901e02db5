//! The last turns of the ports, and their ends.
ghost use Rattle.std.specs.Prelude.{◌≡◌, ◌≢◌, ◌<◌, length, map, All, AllPairs, IfOk};
ghost use Rattle.closed_ports.specs.Closed.{AreClosed, ArePortsOfLanes, HaveEndedFrom, HaveComeBack};
ghost use Rattle.closed_ports.specs.Laws.{TakeColumnsIn};

use crate::laws::{
    every_row_is_of_a_sender, settled_ports_have_all_ends, settled_rows_are_what_was_sent,
};
use crate::settling::settle_all;
use crate::taking_in::take_in_ends;
use crate::{Body, Driver, EndedPort, Hosted, Parcel};
use driver_hosts::take_back;
use no_memory::NoMemory;
use std::alloc::Global;
use std::sync::Wait;
use task_queue::SendEnd;

// Takes in the ends of one sender after another.
fn take_in_columns<D: Driver>(bodies: &mut Vec<Body<D>>, columns: Vec<Vec<SendEnd<Parcel>>>)
    requires { ArePortsOfLanes bodies.old.items (map (λ c. c.items) columns.items) }
    ensures { TakeColumnsIn bodies.old.items (map (λ c. c.items) columns.items) bodies.new.items }
{
    settled_ports_have_all_ends();
    for ends in columns {
        take_in_ends(bodies, ends);
    }
}

/// Closes the ports of a run whose jobs have all ended. Each takes in the ends of its lane: `columns` has for each sender, by its number, one end of each port's lane, those
/// of the processes first, then the poller's, then those of the workers. Then each makes turns until it has nothing left to do, ends, and its driver is back at its place.
///
/// Answers what the ports leave, in their order, if each has come to rest. One that hasn't found no memory, or is owed something that no task of its lane brings: that is
/// told as want of memory. The drivers are back all the same.
pub fn close_ports<D: Driver, R: Wait>(
    rt: &R,
    alloc: Global,
    hosts: &mut Vec<Hosted<D>>,
    places: &[usize],
    bodies: Vec<Body<D>>,
    columns: Vec<Vec<SendEnd<Parcel>>>,
) -> Result<Vec<EndedPort>, NoMemory>
    requires len { length places.now ≡ length bodies.items }
    requires within { All (λ at. at < length hosts.old.items) places.now }
    requires different { AllPairs (λ at later. at ≢ later) places.now }
    requires lanes { ArePortsOfLanes bodies.items (map (λ c. c.items) columns.items) }
    ensures returned { HaveComeBack D.kind D.stage D.faults D.own D.program bodies.items places.now hosts.old.items hosts.new.items }
    ensures closed { IfOk result (λ ports. AreClosed bodies.items (map (λ c. c.items) columns.items) ports.items) }
    ensures stand { IfOk result (λ ports. HaveEndedFrom D.kind D.faults D.own D.program bodies.items places.now ports.items hosts.new.items) }
{
    settled_ports_have_all_ends();
    settled_rows_are_what_was_sent();
    every_row_is_of_a_sender();
    let mut bodies = bodies;
    take_in_columns(&mut bodies, columns);
    let is_settled = settle_all(rt, &mut bodies);
    let ports = take_back(alloc, hosts, places, bodies)?;
    if is_settled { Ok(ports) } else { Err(NoMemory) }
}
