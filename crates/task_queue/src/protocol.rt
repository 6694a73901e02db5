//! The rule under which the queue of a lane is used, and its four kinds of step.
use crate::fits::Fits;
use crate::item::Item;
use crossbeam_queue::protocol::{Join, Lesson, Outcome, Protocol, Split};
use std::collections::LinkedList;
use std::marker::{Brand, PhantomData};

/// A sender whose end was taken in: its number, how many ends it made, and all that it sent. No value of it is made.
pub struct Ended<T> {
    pub number: u32,
    pub made: u32,
    pub sent: LinkedList<T>,
}

/// What one end knows of its lane. No value of it is made.
///
/// A sender knows its number, how many ends were made if that is 0, and what it sent. The taker knows what it took, and the
/// senders whose ends it took in. Both know the lane's key. An end that was taken in is neither.
pub struct Hand<T, K> {
    pub key: Option<K>,
    pub sends: bool,
    pub number: u32,
    pub made: u32,
    pub sent: LinkedList<T>,
    pub takes: bool,
    pub taken: LinkedList<Item<T>>,
    pub ended: LinkedList<Ended<T>>,
}

/// The lane's rule, which holds between any two steps. `specs/Lane.antt` has it.
pub struct Rule;

impl<T: Fits> Protocol<Item<T>, Hand<T, T::Key>> for Rule {
    ghost use Rattle.std.specs.Prelude.{[], None};
    ghost use Rattle.task_queue.specs.Lane.{Lane, taker_hand};

    ghost holds = { Lane T.fits };

    ghost first = { taker_hand None [] [] };
}

/// The key of a lane that is being made. The call that makes it picks the key.
pub trait Keyed<K> {
    ghost use Rattle.std.specs.Prelude.{Option};

    ghost key: { Option K };
}

impl<K> Keyed<K> for Brand {
    ghost use Rattle.std.specs.Prelude.{None};

    ghost key = { None };
}

/// The first step: the taker splits off end 0, and both get the key.
pub struct Opens<B> {
    marker: PhantomData<B>,
}

impl<T, K, B: Keyed<K>> Split<Hand<T, K>> for Opens<B> {
    ghost use Rattle.std.specs.Prelude.{[]};
    ghost use Rattle.task_queue.specs.Lane.{sender_hand, taker_hand};

    ghost left = { λ v. taker_hand B.key [] [] };

    ghost right = { λ v. sender_hand B.key 0 1 [] };
}

/// End 0 splits off the end of the next number, which has sent nothing.
pub struct Splits;

impl<T, K> Split<Hand<T, K>> for Splits {
    ghost use Rattle.task_queue.specs.Lane.{after_split, split_off};

    ghost left = { after_split };

    ghost right = { split_off };
}

/// A sender puts a value.
pub struct Puts;

impl<T, K> Outcome<Item<T>, Hand<T, K>> for Puts {
    ghost use Rattle.std.specs.Prelude.{◌≡◌};
    ghost use Rattle.task_queue.specs.Lane.{after_put};

    ghost then = { λ v x w. w ≡ after_put v x };
}

/// The taker takes the item at the front, or finds the queue empty.
pub struct Takes;

impl<T: Fits> Outcome<Item<T>, Hand<T, T::Key>> for Takes {
    ghost use Rattle.std.specs.Prelude.{◌≡◌};
    ghost use Rattle.task_queue.specs.Lane.{after_take, WasFront};

    ghost then = { λ v x w. (w ≡ after_take v x) × WasFront T.fits v x };
}

impl<T: Fits> Lesson<Item<T>, Hand<T, T::Key>> for Takes {
    ghost use Rattle.task_queue.specs.Lane.{Stood};

    ghost fact = { λ v items. Stood T.fits items v };
}

/// The taker takes in a sender's end.
pub struct TakesIn;

impl<T, K> Join<Hand<T, K>> for TakesIn {
    ghost use Rattle.task_queue.specs.Lane.{after_take_in, spent_hand};

    ghost both = { after_take_in };

    ghost spent = { spent_hand };
}
