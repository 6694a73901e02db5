//! The calls that suspended a process, as its receipts tell of them and as the history of a port does: in its Listed rows, and in its Resumed rows.
#![tactic(auto)]

ghost use Rattle.suspended_calls.specs.Listed.{ResumedCallsAreListed, ListedCallsAreSuspended, ListedCallsAreInOrder, SuspendedCallsAreListed};

/// In a finished history the Resumed rows of a process name the same calls as its Listed rows, in the same order.
pub fn resumed_calls_are_listed()
    ensures { ResumedCallsAreListed }
{}

/// No call is listed twice, and of the calls that have a row those are listed that suspended their process.
pub fn listed_calls_are_suspended()
    ensures { ListedCallsAreSuspended }
{}

/// Where a port listed each sender in the order of its tasks, and all of them have a row, so it is with each process.
pub fn listed_calls_are_in_order()
    ensures { ListedCallsAreInOrder }
{}

/// Where a process was listed in the order of its calls, and only for calls that have a row, its receipts, its Listed rows and its Resumed rows tell of the same calls in one order.
pub fn suspended_calls_are_listed()
    ensures { SuspendedCallsAreListed }
{}
