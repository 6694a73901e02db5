//! In which order jobs are worked, as the contract of a function that does nothing.
ghost use Rattle.async_jobs.specs.Order.{SubmittedByKey, TakenByKey, TakenOnceEnded, AllTakenByKey, AnsweredAsTaken, AnsweredByKey, AllAnsweredByKey};

/// Jobs of one key are worked in the order in which one pool submits them, whatever the workers do and in whatever order.
///
/// A key's jobs go to one worker. What that worker has taken of a pool's end is at every moment a prefix of the key's jobs in the
/// order of their submission, each once; it is all of them once the end was taken in and a turn then found the lane empty. A
/// worker's answers name the jobs, done or handed back, in the order in which it took them.
pub fn jobs_of_one_key_in_order()
    ensures submitted { SubmittedByKey }
    ensures taken { TakenByKey }
    ensures ended { TakenOnceEnded }
    ensures all { AllTakenByKey }
    ensures answered { AnsweredAsTaken }
    ensures by_key { AnsweredByKey }
    ensures whole { AllAnsweredByKey }
{}
