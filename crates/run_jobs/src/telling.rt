// A task for a port: it is put into the port's lane, and the port is woken.
ghost use Rattle.std.specs.Prelude.{◌≡◌, ◌<◌, ℕ, true, false, [], ◌∷◌, length, slice_index_or, OnOk, OnErr};
ghost use Rattle.port_model.specs.declared.signal.Sender.{Sender};
ghost use Rattle.port_model.specs.Signals.{is_command};
ghost use Rattle.process_end.specs.port_lanes.port_history.Laws.{may_send};
ghost use Rattle.process_end.specs.port_lanes.Parcels.{FitsLane, names_below};
ghost use Rattle.process_end.specs.Views.{LaneEnd};
ghost use Rattle.port_sched.specs.Homes.{AreHomes};
ghost use Rattle.run_jobs.specs.Telling.{plain_parcel, AreEndsOf, Sends, TellsOf, WakesBy};

use no_memory::NoMemory;
use port_model::Task;
use port_sched::{JobSeats, PortBody};
use process_end::Parcel;
use std::sync::Wait;
use task_queue::SendEnd;

// Puts a task into the lane at a place.
fn put_at<R: Wait>(
    rt: &R,
    lanes: &mut Vec<SendEnd<Parcel>>,
    port: usize,
    task: Task,
) -> Result<(), NoMemory>
    requires place { port < length lanes.old.items }
    requires plain { is_command task.signal ≡ false }
    requires fits { (d : LaneEnd) → FitsLane (slice_index_or lanes.old.items port d).key (slice_index_or lanes.old.items port d).number (plain_parcel task) }
    ensures sent { OnOk result (Sends (record { port = port; task = task } ∷ []) lanes.old.items lanes.new.items) }
    ensures unsent { OnErr result (lanes.new.items ≡ lanes.old.items) }
{
    match lanes[port].put(rt, Parcel::plain(task)) {
        Ok(_) => Ok(()),
        Err((_, no_memory)) => Err(no_memory),
    }
}

/// Puts a task that is no command into the lane of a port, and wakes the port. A task for a port that isn't there goes nowhere. Where memory is wanting, the task
/// may have been put.
pub(crate) fn tell<B: PortBody, R: Wait>(
    rt: &R,
    seats: &mut JobSeats<B>,
    lanes: &mut Vec<SendEnd<Parcel>>,
    port: u32,
    task: Task,
) -> Result<(), NoMemory>
    requires homes { AreHomes seats.old.homes.items }
    requires ports { length seats.old.homes.items ≡ length lanes.old.items }
    requires plain { is_command task.signal ≡ false }
    requires sender { (sender : Sender) × AreEndsOf sender lanes.old.items × (may_send sender task.signal ≡ true) }
    requires named { (processes : ℕ) → names_below processes task.signal ≡ true }
    ensures told { TellsOf result (record { port = port; task = task } ∷ []) lanes.old.items lanes.new.items }
    ensures woke { WakesBy result seats.old seats.new }
{
    let port = port as usize;
    if port >= lanes.len() {
        return Ok(());
    }
    put_at(rt, lanes, port, task)?;
    seats.wake(rt, port)
}
