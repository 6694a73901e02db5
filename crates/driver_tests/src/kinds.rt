//! The other kinds, by what each call shows.

use crate::checks::{is_right, none_is_wrong};
use crate::port::{DriverCallback, DriverSight, DriverStep, first_wrong, is_named, refuses};
use crate::shown::ShownEffect;
use port_driver::{Driver, StartRefusal};
use sample_drivers::{Digest, Echo, Refuse, Refused, Tally, Valve};
use std::alloc::Global;

/// A command of two segments, of three bytes.
const TWO_SEGMENTS: DriverStep = DriverStep::Make(DriverCallback::Command(&[b"ab", b"c"]));

/// A command of no bytes.
const NO_SEGMENTS: DriverStep = DriverStep::Make(DriverCallback::Command(&[]));

const ECHO_SENDS: [DriverStep; 4] = [
    DriverStep::Make(DriverCallback::Command(&[b"ab", b"", b"c"])),
    DriverStep::See(DriverSight::Did(&[ShownEffect::Sent(b"abc")])),
    DriverStep::Make(DriverCallback::Command(&[])),
    DriverStep::See(DriverSight::Did(&[ShownEffect::Sent(b"")])),
];

#[test]
fn echo_sends_the_segments_of_a_command_as_one(rt: HostRuntime) {
    none_is_wrong(&rt, first_wrong(rt.alloc(), Echo::new(), &ECHO_SENDS));
}

const ECHO_ANSWERS: [DriverStep; 6] = [
    DriverStep::Make(DriverCallback::Control(1, b"ab")),
    DriverStep::See(DriverSight::Replied(b"ab")),
    DriverStep::Make(DriverCallback::Call(1, b"cd")),
    DriverStep::See(DriverSight::Replied(b"cd")),
    DriverStep::Make(DriverCallback::Control(2, b"ab")),
    DriverStep::See(DriverSight::Refused),
];

#[test]
fn echo_answers_operation_1_with_its_bytes(rt: HostRuntime) {
    none_is_wrong(&rt, first_wrong(rt.alloc(), Echo::new(), &ECHO_ANSWERS));
}

const TALLY_NUMBERS: [DriverStep; 4] = [
    TWO_SEGMENTS,
    NO_SEGMENTS,
    DriverStep::Make(DriverCallback::Control(1, b"")),
    DriverStep::See(DriverSight::Replied(&[0, 0, 0, 0, 0, 0, 0, 2, 0, 0, 0, 0, 0, 0, 0, 3])),
];

#[test]
fn tally_answers_two_numbers_of_8_bytes(rt: HostRuntime) {
    none_is_wrong(&rt, first_wrong(rt.alloc(), Tally::new(), &TALLY_NUMBERS));
}

const TALLY_TERM: [DriverStep; 4] = [
    TWO_SEGMENTS,
    NO_SEGMENTS,
    DriverStep::Make(DriverCallback::Call(1, b"")),
    DriverStep::See(DriverSight::Replied(b"\x83h\x03w\x05tallya\x02a\x03")),
];

#[test]
fn tally_answers_a_term(rt: HostRuntime) {
    none_is_wrong(&rt, first_wrong(rt.alloc(), Tally::new(), &TALLY_TERM));
}

const TALLY_WATCHES: [DriverStep; 7] = [
    TWO_SEGMENTS,
    NO_SEGMENTS,
    DriverStep::Make(DriverCallback::Control(2, b"")),
    DriverStep::See(DriverSight::Replied(b"")),
    DriverStep::See(DriverSight::Did(&[ShownEffect::Watch(7)])),
    DriverStep::Make(DriverCallback::ProcessEnded(7)),
    DriverStep::See(DriverSight::Did(&[ShownEffect::Sent(&[7])])),
];

#[test]
fn tally_watches_the_caller_and_tells_its_end(rt: HostRuntime) {
    none_is_wrong(&rt, first_wrong(rt.alloc(), Tally::new(), &TALLY_WATCHES));
}

const VALVE_SENDS: [DriverStep; 3] = [
    TWO_SEGMENTS,
    DriverStep::See(DriverSight::Did(&[ShownEffect::Sent(b"abc")])),
    DriverStep::See(DriverSight::SoftBusy(false)),
];

#[test]
fn valve_sends_the_segments_of_a_command_as_one(rt: HostRuntime) {
    none_is_wrong(&rt, first_wrong(rt.alloc(), Valve::new(), &VALVE_SENDS));
}

#[test]
fn a_soft_valve_says_so_by_its_name(rt: HostRuntime) {
    is_right(&rt, Valve::soft().soft_busy());
    is_right(&rt, is_named(&Valve::soft(), b"valve_soft"));
    is_right(&rt, is_named(&Valve::new(), b"valve"));
}

const SOFT_VALVE: [DriverStep; 7] = [
    DriverStep::Make(DriverCallback::Control(1, b"")),
    DriverStep::See(DriverSight::Replied(b"")),
    DriverStep::See(DriverSight::Did(&[ShownEffect::Busy(true)])),
    DriverStep::Make(DriverCallback::Control(2, b"")),
    DriverStep::See(DriverSight::Did(&[ShownEffect::Busy(false)])),
    DriverStep::Make(DriverCallback::Control(3, b"")),
    DriverStep::See(DriverSight::Refused),
];

#[test]
fn a_soft_valve_is_set_busy_and_freed(rt: HostRuntime) {
    none_is_wrong(&rt, first_wrong(rt.alloc(), Valve::soft(), &SOFT_VALVE));
}

const DIGEST_JOBS: [DriverStep; 6] = [
    DriverStep::Make(DriverCallback::Command(&[b"\x09", b"\x03ab"])),
    DriverStep::See(DriverSight::Did(&[ShownEffect::Job(0, 9, 3, b"ab")])),
    DriverStep::Make(DriverCallback::Command(&[b"\x09\x01"])),
    DriverStep::See(DriverSight::Did(&[ShownEffect::Job(1, 9, 1, b"")])),
    DriverStep::Make(DriverCallback::JobDone(0, b"xy")),
    DriverStep::See(DriverSight::Did(&[ShownEffect::Sent(b"xy")])),
];

#[test]
fn digest_makes_a_job_of_two_segments(rt: HostRuntime) {
    none_is_wrong(&rt, first_wrong(rt.alloc(), Digest::new(), &DIGEST_JOBS));
}

const DIGEST_FAILS: [DriverStep; 2] = [
    DriverStep::Make(DriverCallback::Command(&[b"\x09", b"\x04ab"])),
    DriverStep::See(DriverSight::Did(&[ShownEffect::Fails(b"einval")])),
];

#[test]
fn digest_fails_where_a_command_makes_no_job(rt: HostRuntime) {
    none_is_wrong(&rt, first_wrong(rt.alloc(), Digest::new(), &DIGEST_FAILS));
}

/// Whether a refuser refuses so.
fn is_refused(alloc: Global, refused: Refused, wanted: StartRefusal) -> bool {
    refuses(alloc, Refuse::new(refused), wanted)
}

#[test]
fn each_refuser_has_its_refusal(rt: HostRuntime) {
    is_right(
        &rt,
        is_refused(rt.alloc(), Refused::General, StartRefusal::General),
    );
    is_right(
        &rt,
        is_refused(rt.alloc(), Refused::Errno, StartRefusal::Errno),
    );
    is_right(
        &rt,
        is_refused(rt.alloc(), Refused::Badarg, StartRefusal::Badarg),
    );
}
