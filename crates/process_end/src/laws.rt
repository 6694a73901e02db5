//! What follows of what a process keeps, as contracts of functions that do nothing.
ghost use Rattle.process_end.specs.Laws.{ShownStatsRise, AddFreesOrStops, AddKeepsOnce};
ghost use Rattle.process_end.specs.Bounds.{KeptAreAll, WordsKeepBound};

/// The STAT words in the receipts of a process for a port agree with the port's marks as those that its seat found do, and their counts of marks never fall.
pub fn shown_stats_rise()
    ensures { ShownStatsRise }
{}

/// Among a sender's plain adds that left one and the same odd period, at most one wasn't taken back.
pub fn plain_adds_differ()
    ensures once { AddKeepsOnce }
    ensures free { AddFreesOrStops }
{}

/// Where the port took in the seats of all senders and none took an add back, no MSGQ word that a sender or the port found or left has more bytes than the bound.
pub fn words_keep_the_bound()
    ensures bound { WordsKeepBound }
    ensures kept { KeptAreAll }
{}
