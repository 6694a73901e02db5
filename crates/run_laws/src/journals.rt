//! What a replay finds of the journal of a run, by what a run of a script promises.
ghost use Rattle.run_laws.specs.Journals.{JournalsAreReplayedIn};

use port_driver::Driver;

/// In every run of a script, the history of each port of its report is one that a replay finds legal. And the names and the ports of the report are those of a book, so that its journal is read again as it is,
/// where each part of it fits its type.
pub fn journals_are_replayed_in_every_run<D: Driver>()
    ensures { JournalsAreReplayedIn D.kind D.stage D.faults D.own D.program }
{}
