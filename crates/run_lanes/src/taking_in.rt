// The ends of lanes that are given back.
ghost use Rattle.std.specs.Prelude.{◌≡◌, ◌+◌, ◌<◌, [], ◌∷◌, length, All, slice_index_or, slice_set};
ghost use Rattle.task_queue.specs.Ends.{Taking};
ghost use Rattle.run_lanes.specs.Ends.{taken_in, AreOfLanes, Emptied, TakesEachIn};

use std::sync::Wait;
use task_queue::{Fits, SendEnd, TakeEnd};

/// Takes in these ends of one lane, in their order.
pub fn take_all_in<T: Fits + Drop>(taker: &mut TakeEnd<T>, ends: Vec<SendEnd<T>>)
    requires { All (λ e. e.lane ≡ taker.old.lane) ends.items }
    ensures { taker.new ≡ taken_in taker.old ends.items }
{
    'ends: for end in ends {
        taker.take_in(end);
    }
}

// Takes what is in the lane, and drops it.
fn take_rest<T: Fits + Drop, R: Wait>(rt: &R, lane: &mut TakeEnd<T>)
    ensures { Emptied T.fits lane.old lane.new }
{
    'takes: for _ in rt.forever() {
        let Some(_) = lane.take(rt) else {
            return;
        };
    }
}

/// Takes in these ends of one lane, in their order, and drops what is left in it. It takes no memory, and may spin while another thread is in a call.
pub fn empty_lane<T: Fits + Drop, R: Wait>(rt: &R, lane: &mut TakeEnd<T>, ends: Vec<SendEnd<T>>)
    requires { All (λ e. e.lane ≡ lane.old.lane) ends.items }
    ensures { Emptied T.fits (taken_in lane.old ends.items) lane.new }
{
    take_all_in(lane, ends);
    take_rest(rt, lane);
}

// Takes in an end of the lane at a place.
fn take_in_at<T: Fits + Drop>(takers: &mut Vec<TakeEnd<T>>, lane: usize, end: SendEnd<T>)
    requires place { lane < length takers.old.items }
    requires lane { (t : Taking _ _) → end.lane ≡ (slice_index_or takers.old.items lane t).lane }
    ensures { (t : Taking _ _) → takers.new.items ≡ slice_set takers.old.items lane (taken_in (slice_index_or takers.old.items lane t) (end ∷ [])) }
{
    takers[lane].take_in(end);
}

/// Takes in one end of each lane, in the order of the lanes: what one gives back who had an end of each.
pub fn take_each_in<T: Fits + Drop>(takers: &mut Vec<TakeEnd<T>>, ends: Vec<SendEnd<T>>)
    requires { AreOfLanes takers.old.items ends.items }
    ensures { TakesEachIn takers.old.items ends.items takers.new.items }
{
    let mut lane = 0;
    'ends: for end in ends {
        take_in_at(takers, lane, end);
        lane += 1;
    }
}
