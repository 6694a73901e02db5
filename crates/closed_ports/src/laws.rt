//! What follows for ports that have settled and for the ports of a run that are closed, as contracts of functions that do nothing.
ghost use Rattle.closed_ports.specs.Jobs.{ClosedPortsAreLawful};
ghost use Rattle.closed_ports.specs.Laws.{ColumnsAreAllEnds, ColumnsStayOfBodies, NoColumnYet, OneColumnMore, SettledRowsAreSent};
ghost use Rattle.closed_ports.specs.Senders.{EveryRowIsOfAnEnd};
ghost use Rattle.closed_ports.specs.Signals.{AcceptedSignalsHaveRows, MailIsOfHistories};

use port_lanes::each_sender_has_an_end;

/// The rows of a settled port, of which all ends of the lane were taken in, have each task that each end sent, once, in its order.
pub fn settled_rows_are_what_was_sent()
    ensures { SettledRowsAreSent }
{}

/// Where the ports take in one end each from one job after another, and then settle, each has taken in all ends of its lane.
pub fn settled_ports_have_all_ends()
    ensures none { NoColumnYet }
    ensures more { OneColumnMore }
    ensures fit { ColumnsStayOfBodies }
    ensures all { ColumnsAreAllEnds }
{}

/// Each task that has a row is from a process, the poller or a worker of the lane's key.
pub fn every_row_is_of_a_sender()
    ensures { EveryRowIsOfAnEnd }
{}

/// Where the ports of a run are closed, and its workers answered the jobs of their lanes in the order in which they took them, the tasks of each worker that have a row at a port tell the first of the
/// port's jobs that are the worker's, in their order, and the history of each port keeps all laws.
pub fn closed_ports_are_lawful()
    ensures { ClosedPortsAreLawful }
{
    each_sender_has_an_end();
}

/// Where the ports of a run are closed, the tasks of each process that have a row at a port are exactly those that its receipts show accepted, in the order sent, each once; and what each
/// port sent to a process is the mail of the port's history to that process.
pub fn accepted_signals_have_rows()
    ensures signals { AcceptedSignalsHaveRows }
    ensures mail { MailIsOfHistories }
{
    each_sender_has_an_end();
}
