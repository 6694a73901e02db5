//! What follows of what a run leaves, as contracts of functions that do nothing.
ghost use Rattle.run_end.specs.Shown.{ShownWordsHold};
ghost use Rattle.run_end.specs.Mailboxes.{AllMailIsMerge};
ghost use Rattle.run_end.specs.Merge.{MailIsMerge};
ghost use Rattle.run_end.specs.Tell.{AllCallsTell, AllRowsStay, AllSeatsShow};
ghost use Rattle.run_end.specs.Waited.{AllWaitsAreShown};
ghost use Rattle.run_end.specs.Whole.{RunPortsHold, RunWordsHold};

/// The words in the receipts of all processes agree with the marks of the port to which the calls were made, have bytes within the bound of its message queue, and show it busy only with a
/// cause among the commands that were put.
pub fn shown_words_hold()
    ensures { ShownWordsHold }
{}

/// Once the rest of its mail was taken, the mail of a process is that of each port, in the port's order, each once, and what the process added itself.
pub fn mail_is_merge()
    ensures { MailIsMerge }
{}

/// So is the mail of each process, once the rest of all mailboxes was taken.
pub fn all_mail_is_merge()
    ensures { AllMailIsMerge }
{}

/// The receipts of a process are those of its calls, and each port's end and seat are as the receipts tell.
pub fn calls_tell()
    ensures { AllCallsTell }
{}

/// A process has the data for which each of its steps waited, or the port is closed by the receipts of the calls behind that step.
pub fn waits_are_shown()
    ensures { AllWaitsAreShown }
{}

/// The seats of one port that all processes give back show their calls.
pub fn seats_show()
    ensures { AllSeatsShow }
{}

/// The seats that the processes give back are of the words of which those were that they were given, so that they can be joined.
pub fn rows_stay()
    ensures { AllRowsStay }
{}

/// Once all seats were joined, the words in the receipts of all processes hold, for each port.
pub fn run_words_hold()
    ensures { RunWordsHold }
{}

/// The words that each port itself found or left hold too.
pub fn port_words_hold()
    ensures { RunPortsHold }
{}
