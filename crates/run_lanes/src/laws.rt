ghost use Rattle.run_lanes.specs.Ends.{AllOfEachIsTaken};

use task_queue::Fits;

/// Where a taking end took in these ends, and perhaps more later, and then found its lane empty, all that each of them sent was taken.
pub fn all_of_each_end_is_taken<T: Fits>()
    ensures { AllOfEachIsTaken T T.Key }
{}
