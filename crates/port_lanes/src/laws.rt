//! What the numbering of a lane's ends says, as contracts of a function that does nothing.
ghost use Rattle.port_lanes.specs.Keys.{EndsAreNumbered, NumbersHaveSenders};

/// Each sender within the counts has an end of its own, and each end below the timer's, and the timer's, is that of its sender.
pub fn each_sender_has_an_end()
    ensures ends { EndsAreNumbered }
    ensures senders { NumbersHaveSenders }
{}
