//! What the definitions of this crate say together, as contracts of functions that do nothing.
ghost use Rattle.history_replay.specs.Laws.{LegalIsWhole, LegalIsRight};

use port_history::nothing_is_told_of_lawful_histories_alone;

/// Where a replay tells that all ports are legal, each port's history keeps every law at each row and is finished; and of ports whose
/// histories all do so a replay tells nothing else.
pub fn nothing_is_told_of_legal_ports_alone()
    ensures whole { LegalIsWhole }
    ensures right { LegalIsRight }
{
    nothing_is_told_of_lawful_histories_alone();
}
