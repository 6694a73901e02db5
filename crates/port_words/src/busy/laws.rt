//! What the rule of a table says, as contracts of functions that do nothing.
ghost use Rattle.port_words.specs.busy.Laws.{StatTellsMarks, BytesAreAdds, AddsDiffer, BytesAreBounded, BusyHasCause, PeriodsClimb, WordsAreBounded, PeriodsAreFilled, NeverBusyOff, NewTableKept, SenderSplitKept, WeightSplitKept, SeatJoinKept, StatLookKept, MarkKept, SenderLookKept, PortLookKept, AddKept, UndoKept, RemovalKept};

/// At every moment, whatever the threads do: STAT tells the marks, MSGQ has the bytes of the adds that are out, within the bounds, and is busy only with cause.
pub fn busy_rule_at_every_moment()
    ensures stat { StatTellsMarks }
    ensures bytes { BytesAreAdds }
    ensures differ { AddsDiffer }
    ensures bounded { BytesAreBounded }
    ensures cause { BusyHasCause }
    ensures climbs { PeriodsClimb }
    ensures words { WordsAreBounded }
    ensures filled { PeriodsAreFilled }
    ensures off { NeverBusyOff }
{}

/// The rule holds of a new table, and each kind of step keeps it: splits, joins, looks, marks, adds and removals.
pub fn busy_rule_kept_by_each_step()
    ensures new { NewTableKept }
    ensures sender { SenderSplitKept }
    ensures weight { WeightSplitKept }
    ensures join { SeatJoinKept }
    ensures stat_look { StatLookKept }
    ensures mark { MarkKept }
    ensures sender_look { SenderLookKept }
    ensures port_look { PortLookKept }
    ensures add { AddKept }
    ensures undo { UndoKept }
    ensures removal { RemovalKept }
{}
