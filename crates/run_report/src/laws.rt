ghost use Rattle.std.specs.Prelude.{◌≡◌, List};
ghost use Rattle.port_model.specs.declared.row.Row.{Row};
ghost use Rattle.port_history.specs.Opening.{Opening};
ghost use Rattle.run_report.specs.Laws.{SameCounts};

/// A law of the definitions alone: what a report counts in the rows of a port asks for no more of the port's opening than its owner and the
/// number of processes. So it is the same whatever the port's number, and the kind, the config and the events of its driver.
pub fn counts_ask_for_owner_and_processes_alone()
    ensures { (a b : Opening) (history : List Row) → a.owner ≡ b.owner → a.processes ≡ b.processes → SameCounts a b history }
{}
