//! What the report of a run counts for a process, by what a run of a script promises.
ghost use Rattle.run_laws.specs.Counted.{CommandsAreCountedIn};

use port_driver::Driver;

/// In every run of a script, the commands that the report counts for a process, in the rows of all ports, are as many as those that the receipts of the process show put.
pub fn commands_are_counted_in_every_run<D: Driver>()
    ensures { CommandsAreCountedIn D.kind D.stage D.faults D.own D.program }
{}
