ghost use Rattle.std.specs.Prelude.{◌≡◌, [], ◌∷◌, ◌++◌, length, Some, IfSome, IfNone};
ghost use Rattle.std.specs.Arc.{arc_value};
ghost use Rattle.crossbeam_queue.specs.SegTies.{IsSegPassOf};
ghost use Rattle.task_queue.specs.Items.{of};
ghost use Rattle.task_queue.specs.Lane.{taker_hand};
ghost use Rattle.task_queue.specs.Ends.{ended_of, KeepsOrder, TookAll, WasEmpty, WasFront};

use crate::channel::{LanePass, Shared};
use crate::fits::Fits;
use crate::item::Item;
use crate::protocol::{Takes, TakesIn};
use crate::send_end::SendEnd;
use std::alloc::Global;
use std::marker::Model;
use std::sync::{Arc, Wait};
use wake_ups::{Idle, Waiter};

/// The end of a lane that takes. It also takes in the sending ends that are not used any more.
#[derive(Drop)]
pub struct TakeEnd<T: Fits + Drop> {
    channel: Shared<T>,
    pass: LanePass<T>,
}

impl<T: Fits + Drop> Model for TakeEnd<T> {
    ghost use Rattle.std.specs.Prelude.{◌≡◌, Some};
    ghost use Rattle.std.specs.Arc.{arc_value};
    ghost use Rattle.crossbeam_queue.specs.SegTies.{IsSegPassOf};
    ghost use Rattle.task_queue.specs.Lane.{taker_hand};
    ghost use Rattle.task_queue.specs.Ends.{Taking};

    ghost Value = { Taking T T.Key };

    ghost view = { λ e. record { lane = (arc_value e.channel).queue.web; key = (arc_value e.channel).key.value; taken = e.pass.me.view.client.taken; ended = e.pass.me.view.client.ended } };

    ghost invariant = { λ e. IsSegPassOf (arc_value e.channel).queue e.pass
        × (e.pass.me.view.client ≡ taker_hand (Some (arc_value e.channel).key.value) e.pass.me.view.client.taken e.pass.me.view.client.ended) };
}

impl<T: Fits + Drop> TakeEnd<T> {
    pub(crate) fn new(channel: Shared<T>, pass: LanePass<T>) -> TakeEnd<T>
        requires queue { IsSegPassOf (arc_value channel).queue pass }
        requires hand { pass.me.view.client ≡ taker_hand (Some (arc_value channel).key.value) [] [] }
        ensures { result ≡ record { lane = (arc_value channel).queue.web; key = (arc_value channel).key.value; taken = []; ended = [] } }
    {
        TakeEnd { channel, pass }
    }

    /// Takes the item at the front, which is the next one of its sender. None only where the queue was empty at the step of this
    /// call; then all that the ended senders sent was taken. It takes no memory, and may spin while another thread is in a call.
    pub fn take<R: Wait>(&mut self, rt: &R) -> Option<Item<T>>
        ensures same { self.new ≡ record self.old { taken = self.new.taken } }
        ensures taken { IfSome result (λ x. self.new ≡ record self.old { taken = self.old.taken ++ x ∷ [] }) }
        ensures next { IfSome result (λ x. x.seq ≡ length (of x.sender self.old.taken)) }
        ensures fits { IfSome result (λ x. T.fits self.old.key x.sender x.value) }
        ensures front { IfSome result (WasFront T.fits self.old) }
        ensures unchanged { IfNone result (self.new ≡ self.old) }
        ensures empty { IfNone result (WasEmpty T.fits self.old) }
        ensures all { IfNone result (TookAll self.old) }
        ensures order { KeepsOrder T.fits self.new }
    {
        self.channel.queue.pop_as::<Takes, R>(rt, &mut self.pass)
    }

    /// Waits a little for something to take, longer each time, as `Idle::wait_at`. A put ends the wait. It takes nothing.
    pub fn rest<R: Wait>(&self, rt: &R, idle: &Idle) {
        idle.wait_at(rt, &self.channel.waiter);
    }

    /// Where the thread waits that rests at this end, for others that have something for it beside what is put into the lane.
    pub fn waiter(&self) -> &Arc<Waiter, Global> {
        &self.channel.waiter
    }

    /// Takes in a sending end of this lane, which then sends no more. It takes no memory and never waits.
    pub fn take_in(&mut self, end: SendEnd<T>)
        requires { end.lane ≡ self.old.lane }
        ensures { self.new ≡ record self.old { ended = self.old.ended ++ ended_of end ∷ [] } }
    {
        let pass = end.into_pass();
        self.channel.queue.absorb::<TakesIn>(&mut self.pass, pass);
    }
}
