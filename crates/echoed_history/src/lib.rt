//! The history of a port that sends each command back, as an echo does, where its owner alone sends it commands, and closes it behind them. Laws alone.
#![tactic(auto)]

ghost use Rattle.echoed_history.specs.Laws.{CommandsComeBack, NotFinishedBefore};

/// In a lawful history whose process rows are commands of the owner, then its closes and its end, and the ends of other processes, the owner's mail has the data of its commands in their order, and no
/// command is late; and as long as neither a close nor its end has a row, the history isn't finished.
pub fn commands_come_back()
    ensures whole { CommandsComeBack }
    ensures unfinished { NotFinishedBefore }
{}
