ghost use Rattle.gateway.specs.Laws.{FinishedHasEnd};

/// A law of the definitions alone: a history that is finished tells the reason for which its port closed.
pub fn finished_history_has_an_end()
    ensures { FinishedHasEnd }
{}
