//! What the clauses of a round say of any list of rounds, as the contract of a function that does nothing.
ghost use Rattle.ready_select.specs.Answered.{RoundsAreAnswered};

/// No port was told of an event and a direction more often, over any list of
/// rounds, than the event stands among the answers.
pub fn told_no_more_than_answered()
    ensures { RoundsAreAnswered }
{}
