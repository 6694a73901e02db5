//! What the rule of OVER says, as contracts of functions that do nothing.
ghost use Rattle.port_words.specs.over.Laws.{OverCounts, NumbersDiffer, NewOverKept, OverSplitKept, OverJoinKept, OverLookKept, FinishKept, StopKept};

/// At every moment, whatever the threads do: the word counts the counted seats that have finished and the stops, and no two seats have one number.
pub fn over_rule_at_every_moment()
    ensures counts { OverCounts }
    ensures numbers { NumbersDiffer }
{}

/// The rule holds of a new word, and each kind of step keeps it: split, join, a look, an end and a stop.
pub fn over_rule_kept_by_each_step()
    ensures new { NewOverKept }
    ensures split { OverSplitKept }
    ensures join { OverJoinKept }
    ensures look { OverLookKept }
    ensures finish { FinishKept }
    ensures stop { StopKept }
{}
