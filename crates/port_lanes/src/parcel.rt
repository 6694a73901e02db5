ghost use Rattle.std.specs.Prelude.{◌≡◌, true, false, None, Some};
ghost use Rattle.port_history.specs.port_model.Signals.{data_size, is_command};
ghost use Rattle.port_lanes.specs.Parcels.{IsParcel};

use crate::LaneKey;
use port_history::Task;
use port_words::busy::Weight;
use std::marker::Model;
use task_queue::Fits;

/// What lies in a port's lane: a task, and with a command, and with nothing else, the weight of its bytes in the port's word MSGQ.
#[derive(Drop)]
pub struct Parcel {
    task: Task,
    weight: Option<Weight>,
}

impl Model for Parcel {
    ghost use Rattle.port_lanes.specs.Parcels.{ParcelView, IsParcel};

    ghost Value = { ParcelView };

    ghost view = { λ p. record { task = p.task; weight = p.weight } };

    ghost invariant = { λ p. IsParcel (record { task = p.task; weight = p.weight }) };
}

impl Parcel {
    /// A command, with the weight of its bytes.
    pub fn command(task: Task, weight: Weight) -> Parcel
        requires command { is_command task.signal ≡ true }
        requires size { weight.name.size ≡ data_size task.signal }
        ensures { result ≡ record { task = task; weight = Some weight } }
    {
        Parcel {
            task,
            weight: Some(weight),
        }
    }

    /// A task that is no command.
    pub fn plain(task: Task) -> Parcel
        requires { is_command task.signal ≡ false }
        ensures { result ≡ record { task = task; weight = None } }
    {
        Parcel { task, weight: None }
    }

    pub fn task(&self) -> &Task
        ensures { result.now ≡ self.now.task }
    {
        &self.task
    }

    /// The task, and the weight of a command.
    pub fn into_parts(self) -> (Task, Option<Weight>)
        ensures task { result.0 ≡ self.task }
        ensures weight { result.1 ≡ self.weight }
        ensures parcel { IsParcel (record { task = result.0; weight = result.1 }) }
    {
        let Parcel { task, weight } = self;
        (task, weight)
    }
}

impl Fits for Parcel {
    ghost use Rattle.port_lanes.specs.Parcels.{FitsLane};

    type Key = LaneKey;

    ghost fits = { FitsLane };
}
