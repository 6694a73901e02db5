ghost use Rattle.std.specs.Prelude.{◌≡◌, ◌+◌, [], ◌∷◌, ◌++◌, length, Some, None, OnOk, OnErr, IfOk, IfErr};
ghost use Rattle.std.specs.Arc.{arc_value};
ghost use Rattle.crossbeam_queue.specs.SegTies.{IsSegPassOf};
ghost use Rattle.task_queue.specs.Lane.{sender_hand};

use crate::channel::{LanePass, Shared};
use crate::fits::Fits;
use crate::item::Item;
use crate::protocol::{Puts, Splits};
use no_memory::NoMemory;
use std::marker::Model;
use std::sync::{Arc, Wait};

// How many values one end puts at most.
const MOST: u64 = 1 << 62;

/// A sending end of a lane. Its values keep their order, and have numbers from 0.
#[derive(Drop)]
pub struct SendEnd<T: Fits + Drop> {
    channel: Shared<T>,
    pass: LanePass<T>,
    number: u32,
    made: u32,
    count: u64,
}

impl<T: Fits + Drop> Model for SendEnd<T> {
    ghost use Rattle.std.specs.Prelude.{◌≡◌, ◌≤◌, ◌^◌, Some, length};
    ghost use Rattle.std.specs.Arc.{arc_value};
    ghost use Rattle.crossbeam_queue.specs.SegTies.{IsSegPassOf};
    ghost use Rattle.task_queue.specs.Lane.{sender_hand};
    ghost use Rattle.task_queue.specs.Ends.{Sending};

    ghost Value = { Sending T T.Key };

    ghost view = { λ e. record { lane = (arc_value e.channel).queue.web; key = (arc_value e.channel).key.value; number = e.number; made = e.made; sent = e.pass.me.view.client.sent } };

    ghost invariant = { λ e. IsSegPassOf (arc_value e.channel).queue e.pass
        × (e.pass.me.view.client ≡ sender_hand (Some (arc_value e.channel).key.value) e.number e.made e.pass.me.view.client.sent)
        × (length e.pass.me.view.client.sent ≡ e.count)
        × (e.count ≤ 2 ^ 62) };
}

impl<T: Fits + Drop> SendEnd<T> {
    pub(crate) fn first(channel: Shared<T>, pass: LanePass<T>) -> SendEnd<T>
        requires queue { IsSegPassOf (arc_value channel).queue pass }
        requires hand { pass.me.view.client ≡ sender_hand (Some (arc_value channel).key.value) 0 1 [] }
        ensures { result ≡ record { lane = (arc_value channel).queue.web; key = (arc_value channel).key.value; number = 0; made = 1; sent = [] } }
    {
        SendEnd {
            channel,
            pass,
            number: 0,
            made: 1,
            count: 0,
        }
    }

    /// Its number among the lane's sending ends, from 0.
    pub fn number(&self) -> u32
        ensures { result ≡ self.now.number }
    {
        self.number
    }

    /// A new end of the lane, with the next number. End 0 alone makes them.
    pub fn split(&mut self) -> Result<SendEnd<T>, NoMemory>
        requires { self.old.number ≡ 0 }
        ensures new { IfOk result (λ end. end ≡ record self.old { number = self.old.made; made = 0; sent = [] }) }
        ensures same { self.new ≡ record self.old { made = self.new.made } }
        ensures counted { OnOk result (self.new ≡ record self.old { made = self.old.made + 1 }) }
        ensures refused { OnErr result (self.new ≡ self.old) }
    {
        if self.made == u32::MAX {
            return Err(NoMemory);
        }
        let channel = Arc::try_clone(&self.channel)?;
        let pass = self.channel.queue.another::<Splits>(&mut self.pass);
        let number = self.made;
        self.made += 1;
        Ok(SendEnd {
            channel,
            pass,
            number,
            made: 0,
            count: 0,
        })
    }

    /// Puts a value behind all that the lane has, wakes the taker where it waits, and answers the value's place among this end's values, from 0.
    /// Where no memory is found the value comes back. It may spin while another thread is in a call.
    pub fn put<R: Wait>(&mut self, rt: &R, value: T) -> Result<u64, (T, NoMemory)>
        requires { T.fits self.old.key self.old.number value }
        ensures place { IfOk result (λ place. place ≡ length self.old.sent) }
        ensures same { self.new ≡ record self.old { sent = self.new.sent } }
        ensures sent { OnOk result (self.new ≡ record self.old { sent = self.old.sent ++ value ∷ [] }) }
        ensures refused { IfErr result (λ e. (e.0 ≡ value) × (self.new ≡ self.old)) }
    {
        let seq = self.count;
        if seq == MOST {
            return Err((value, NoMemory));
        }
        let item = Item {
            sender: self.number,
            seq,
            value,
        };
        match self
            .channel
            .queue
            .push_as::<Puts, R>(rt, &mut self.pass, item)
        {
            Ok(()) => {
                self.count += 1;
                self.channel.waiter.wake();
                Ok(seq)
            }
            Err(Item { value, .. }) => Err((value, NoMemory)),
        }
    }

    pub(crate) fn into_pass(self) -> LanePass<T>
        ensures pass { (result.web ≡ self.lane) × (result.me.hand ≡ None) × (result.me.spare ≡ None) }
        ensures hand { result.me.view.client ≡ sender_hand (Some self.key) self.number self.made self.sent }
    {
        let SendEnd {
            channel: _,
            pass,
            ..
        } = self;
        pass
    }
}
