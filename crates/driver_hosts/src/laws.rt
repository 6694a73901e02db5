//! What follows for all drivers that were handed in, as the contract of a function that does nothing.
ghost use Rattle.driver_hosts.specs.Laws.{RefusedComeBack, ServedComeBack};

use crate::Driver;

/// Where the ports were opened and, after whatever turns, ended, each driver that served one is back at its place, stopped and with the port's number, and each other
/// one is as it was handed in. Where one didn't start, all are back as well, fresh or stopped.
pub fn all_drivers_come_back<D: Driver>()
    ensures served { ServedComeBack D.kind D.stage D.faults D.own D.program }
    ensures refused { RefusedComeBack D.kind D.stage D.faults }
{}
