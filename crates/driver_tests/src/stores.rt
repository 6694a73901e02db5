//! The kind `store`, by what its queue has after each call.

use crate::checks::none_is_wrong;
use crate::port::{DriverCallback, DriverSight, DriverStep, first_wrong};
use crate::shown::ShownEffect;
use sample_drivers::Store;

/// A command of two segments, by which the store has `abc`.
const STORED: DriverStep = DriverStep::Make(DriverCallback::Command(&[b"ab", b"c"]));

const SIZE: [DriverStep; 4] = [
    STORED,
    DriverStep::Make(DriverCallback::Control(2, b"")),
    DriverStep::See(DriverSight::Replied(&[0, 0, 0, 0, 0, 0, 0, 3])),
    DriverStep::See(DriverSight::Did(&[])),
];

#[test]
fn control_2_answers_how_many_bytes_are_queued(rt: HostRuntime) {
    none_is_wrong(&rt, first_wrong(rt.alloc(), Store::new(), &SIZE));
}

const JOINED_ONCE: [DriverStep; 5] = [
    STORED,
    DriverStep::See(DriverSight::Segments((2, b"ab"))),
    DriverStep::Make(DriverCallback::Control(3, b"")),
    DriverStep::See(DriverSight::Replied(b"abc")),
    DriverStep::See(DriverSight::Segments((1, b"abc"))),
];

#[test]
fn control_3_joins_the_segments_once(rt: HostRuntime) {
    none_is_wrong(&rt, first_wrong(rt.alloc(), Store::new(), &JOINED_ONCE));
}

const JOINED_AGAIN: [DriverStep; 5] = [
    STORED,
    DriverStep::Make(DriverCallback::Control(3, b"")),
    DriverStep::See(DriverSight::Replied(b"abc")),
    DriverStep::Make(DriverCallback::Control(3, b"")),
    DriverStep::See(DriverSight::Replied(b"abc")),
];

#[test]
fn control_3_answers_the_same_bytes_again(rt: HostRuntime) {
    none_is_wrong(&rt, first_wrong(rt.alloc(), Store::new(), &JOINED_AGAIN));
}

const IN_FRONT: [DriverStep; 5] = [
    STORED,
    DriverStep::Make(DriverCallback::Control(4, b"xy")),
    DriverStep::See(DriverSight::Replied(b"")),
    DriverStep::Make(DriverCallback::Control(3, b"")),
    DriverStep::See(DriverSight::Replied(b"xyabc")),
];

#[test]
fn control_4_puts_its_bytes_in_front(rt: HostRuntime) {
    none_is_wrong(&rt, first_wrong(rt.alloc(), Store::new(), &IN_FRONT));
}

const BEHIND: [DriverStep; 5] = [
    STORED,
    DriverStep::Make(DriverCallback::Control(5, b"\x00\x00\x00\x02xyz")),
    DriverStep::See(DriverSight::Replied(b"")),
    DriverStep::Make(DriverCallback::Control(3, b"")),
    DriverStep::See(DriverSight::Replied(b"abcz")),
];

#[test]
fn control_5_skips_bytes_and_puts_the_others_behind(rt: HostRuntime) {
    none_is_wrong(&rt, first_wrong(rt.alloc(), Store::new(), &BEHIND));
}

const SKIPPED_PAST: [DriverStep; 7] = [
    STORED,
    DriverStep::Make(DriverCallback::Control(5, b"\x00\x00\x00\x04xyz")),
    DriverStep::See(DriverSight::Refused),
    DriverStep::Make(DriverCallback::Control(5, b"\x00\x00\x00")),
    DriverStep::See(DriverSight::Refused),
    DriverStep::Make(DriverCallback::Control(3, b"")),
    DriverStep::See(DriverSight::Replied(b"abc")),
];

#[test]
fn control_5_refuses_to_skip_past_its_bytes(rt: HostRuntime) {
    none_is_wrong(&rt, first_wrong(rt.alloc(), Store::new(), &SKIPPED_PAST));
}

const TAKEN: [DriverStep; 6] = [
    STORED,
    DriverStep::Make(DriverCallback::Control(1, b"\x00\x00\x00\x04")),
    DriverStep::See(DriverSight::Refused),
    DriverStep::Make(DriverCallback::Control(1, b"\x00\x00\x00\x03")),
    DriverStep::See(DriverSight::Replied(b"abc")),
    DriverStep::See(DriverSight::QueueIsEmpty),
];

#[test]
fn control_1_takes_bytes_of_two_segments(rt: HostRuntime) {
    none_is_wrong(&rt, first_wrong(rt.alloc(), Store::new(), &TAKEN));
}

const FLUSHED: [DriverStep; 4] = [
    STORED,
    DriverStep::Make(DriverCallback::Flush),
    DriverStep::See(DriverSight::Did(&[ShownEffect::Sent(b"abc")])),
    DriverStep::See(DriverSight::QueueIsEmpty),
];

#[test]
fn a_flush_sends_all_and_empties_the_queue(rt: HostRuntime) {
    none_is_wrong(&rt, first_wrong(rt.alloc(), Store::new(), &FLUSHED));
}
