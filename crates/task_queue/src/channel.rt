//! The channel that the ends of a lane share, and how a lane is made.
ghost use Rattle.std.specs.Prelude.{◌≡◌, [], Some, IfOk};
ghost use Rattle.crossbeam_queue.specs.SegTies.{IsSegPassOf};
ghost use Rattle.task_queue.specs.Lane.{sender_hand, taker_hand};

use crate::fits::Fits;
use crate::item::Item;
use crate::protocol::{Hand, Keyed, Opens, Rule};
use crate::send_end::SendEnd;
use crate::take_end::TakeEnd;
use crossbeam_queue::{RuledSegQueue, SegPass};
use no_memory::NoMemory;
use std::alloc::{AllocError, Global};
use std::marker::Brand;
use std::snapshot::Snapshot;
use std::sync::Arc;
use wake_ups::Waiter;

pub(crate) type Queue<T> = RuledSegQueue<Item<T>, Hand<T, <T as Fits>::Key>, Rule>;

pub(crate) type LanePass<T> = SegPass<Item<T>, Hand<T, <T as Fits>::Key>>;

/// The queue of a lane with the lane's key, and where its taker waits, shared by the lane's ends. The last end frees it, with the values that are left.
pub(crate) struct Channel<T: Fits + Drop> {
    pub(crate) queue: Queue<T>,
    pub(crate) key: Snapshot<T::Key>,
    pub(crate) waiter: Arc<Waiter, Global>,
}

impl<T: Fits + Drop> Drop for Channel<T> {
    fn drop(self) {
        let Channel {
            queue,
            key: _,
            waiter,
        } = self;
        drop(waiter);
        queue.destroy();
    }
}

pub(crate) type Shared<T> = Arc<Channel<T>, Global>;

/// A new lane: end 0, and the end that takes. Nothing was sent yet.
pub fn lane<T: Fits + Drop>(
    alloc: Global,
    key: Snapshot<T::Key>,
) -> Result<(SendEnd<T>, TakeEnd<T>), NoMemory>
    ensures sender { IfOk result (λ ends. ends.0 ≡ record { lane = ends.1.lane; key = key.value; number = 0; made = 1; sent = [] }) }
    ensures taker { IfOk result (λ ends. ends.1 ≡ record { lane = ends.1.lane; key = key.value; taken = []; ended = [] }) }
{
    let waiter = Arc::new(alloc, Waiter::new())?;
    let (queue, taker, sender) = open::<T, Brand>(alloc, &key)?;
    let Ok(channel) = Arc::new(alloc, Channel { queue, key, waiter }) else {
        return Err(NoMemory);
    };
    let Ok(theirs) = Arc::try_clone(&channel) else {
        return Err(NoMemory);
    };
    Ok((SendEnd::first(theirs, sender), TakeEnd::new(channel, taker)))
}

// The queue with the passes of the taker and of end 0.
fn open<T: Fits + Drop, B: Keyed<T::Key>>(
    alloc: Global,
    key: &Snapshot<T::Key>,
) -> Result<(Queue<T>, LanePass<T>, LanePass<T>), AllocError>
    requires { B.key ≡ Some key.now.value }
    ensures taker { IfOk result (λ r. IsSegPassOf r.0 r.1 × (r.1.me.view.client ≡ taker_hand (Some key.now.value) [] [])) }
    ensures sender { IfOk result (λ r. IsSegPassOf r.0 r.2 × (r.2.me.view.client ≡ sender_hand (Some key.now.value) 0 1 [])) }
{
    let _ = key;
    let (queue, mut taker) = Queue::<T>::with_rule(alloc)?;
    let sender = queue.another::<Opens<B>>(&mut taker);
    Ok((queue, taker, sender))
}
