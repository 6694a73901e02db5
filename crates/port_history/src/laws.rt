//! What the definitions of this crate say together, as contracts of functions that do nothing.
ghost use Rattle.port_history.specs.Lawful.{VerdictIsWhole, VerdictIsRight};

/// A history of which nothing is told that breaks a law keeps every law at each row, and is finished; and of a history that does so
/// nothing is told.
pub fn nothing_is_told_of_lawful_histories_alone()
    ensures whole { VerdictIsWhole }
    ensures right { VerdictIsRight }
{}
