// Lanes that are emptied once all their ends are given back.
ghost use Rattle.std.specs.Prelude.{◌≡◌, ◌<◌, All, [], length, map, slice_index_or, OnOk, OnErr};
ghost use Rattle.task_queue.specs.Ends.{Taking};
ghost use Rattle.run_lanes.specs.Ends.{taken_in, AreLaneColumns, AreLaneRows, AreOfLanes, Emptied, HaveEmptied};
ghost use Rattle.run_lanes.specs.Places.{ChangesAt, ChangesEach};

use crate::columns::transposed;
use crate::taking_in::empty_lane;
use no_memory::NoMemory;
use std::alloc::Global;
use std::sync::Wait;
use task_queue::{Fits, SendEnd, TakeEnd};

// Takes in these ends of the lane at a place, and drops what is left in it.
fn empty_lane_at<T: Fits + Drop, R: Wait>(
    rt: &R,
    lanes: &mut Vec<TakeEnd<T>>,
    place: usize,
    ends: Vec<SendEnd<T>>,
)
    requires place { place < length lanes.old.items }
    requires lane { (t : Taking _ _) → All (λ e. e.lane ≡ (slice_index_or lanes.old.items place t).lane) ends.items }
    ensures { ChangesAt place (λ old new. Emptied T.fits (taken_in old ends.items) new) lanes.old.items lanes.new.items }
{
    empty_lane(rt, &mut lanes[place], ends);
}

// Takes in the ends of each lane, in the order of the lanes, and drops what is left in it.
fn empty_each<T: Fits + Drop, R: Wait>(
    rt: &R,
    lanes: &mut Vec<TakeEnd<T>>,
    columns: Vec<Vec<SendEnd<T>>>,
)
    requires { AreLaneColumns lanes.old.items (map (λ c. c.items) columns.items) }
    ensures { ChangesEach (λ lane old new. Emptied T.fits (taken_in old (slice_index_or (map (λ c. c.items) columns.items) lane [])) new) lanes.old.items lanes.new.items }
{
    let mut place = 0;
    'columns: for ends in columns {
        empty_lane_at(rt, lanes, place, ends);
        place += 1;
    }
}

/// Takes in all ends of these lanes and drops what is left in each lane: the ends of those who had one of each lane, each row in the order of the lanes, and a last one of each lane. It may
/// spin while another thread is in a call. Where no memory is found the ends are dropped.
pub fn empty_lanes<T: Fits + Drop, R: Wait>(
    rt: &R,
    alloc: Global,
    lanes: &mut Vec<TakeEnd<T>>,
    mut rows: Vec<Vec<SendEnd<T>>>,
    last: Vec<SendEnd<T>>,
) -> Result<(), NoMemory>
    requires rows { AreLaneRows lanes.old.items (map (λ r. r.items) rows.items) }
    requires last { AreOfLanes lanes.old.items last.items }
    ensures emptied { OnOk result (HaveEmptied T.fits (map (λ r. r.items) rows.items) last.items lanes.old.items lanes.new.items) }
    ensures unchanged { OnErr result (lanes.new.items ≡ lanes.old.items) }
{
    rows.push(last)?;
    let columns = transposed(alloc, rows, lanes.len())?;
    empty_each(rt, lanes, columns);
    Ok(())
}
