//! What the rule of a lane says, as contracts of functions that do nothing.
ghost use Rattle.task_queue.specs.Laws.{TakenIsPrefix, LeftIsQueued, EndedIsPrefix, EndedIsQueued, NewLaneKept, SplitsKept, PutsKept, TakesKept, TakesInKept};

use crate::fits::Fits;

/// At every moment, whatever the threads do: what was taken of a sender is a prefix of what it sent, and the rest is in the queue. So it is of a sender whose end
/// was taken in.
pub fn prefix_at_every_moment<T: Fits>()
    ensures taken { TakenIsPrefix T.fits }
    ensures left { LeftIsQueued T.fits }
    ensures ended { EndedIsPrefix T.fits }
    ensures ended_left { EndedIsQueued T.fits }
{}

/// The rule of a lane holds at first, and each of the four kinds of step keeps it: split, put, take and take in.
pub fn kept_by_each_step<T: Fits>()
    ensures new { NewLaneKept T.fits }
    ensures split { SplitsKept T.fits }
    ensures put { PutsKept T.fits }
    ensures take { TakesKept T.fits }
    ensures take_in { TakesInKept T.fits }
{}
