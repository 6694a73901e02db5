//! The summary of a load: the same for each run of its script, whatever the schedule.
ghost use Rattle.run_laws.specs.Law.{SummaryIsOfNumber};

use port_driver::Driver;

/// The summary of a run of the load of a number is a function of the number: all its commands are handled, none comes late, and what is counted of each port is what the script says.
pub fn summary_is_of_number<D: Driver>()
    ensures { SummaryIsOfNumber D.kind D.stage D.faults D.own D.program }
{}
