//! Rows of a port, as its driver is called for them.

use crate::served::{SentTask, ServedStep, TaskSight, first_wrong, leaves_stopped};
use port_driver::{Config, Driver, Life, StartRefusal};
use port_service::Service;
use sample_drivers::{Echo, Refuse, Refused, Store, Tally};
use std::alloc::Global;

const CLOSED: [ServedStep; 5] = [
    ServedStep::Handles(0, SentTask::Command(b"ab")),
    ServedStep::See(TaskSight::DidNothing),
    ServedStep::Stops(0, SentTask::Close),
    ServedStep::See(TaskSight::Sends(b"ab")),
    ServedStep::See(TaskSight::ClosedNormally),
];

#[test]
fn a_close_flushes_what_is_queued_and_stops(rt: HostRuntime) {
    assert_eq!(rt; first_wrong(rt.alloc(), Store::new(), &CLOSED), None);
}

const KILLED: [ServedStep; 3] = [
    ServedStep::Handles(0, SentTask::Command(b"ab")),
    ServedStep::Stops(1, SentTask::Kill),
    ServedStep::See(TaskSight::DidNothing),
];

#[test]
fn a_kill_stops_without_a_flush(rt: HostRuntime) {
    assert!(rt; leaves_stopped(rt.alloc(), Store::new(), &KILLED));
}

const WATCHED: [ServedStep; 6] = [
    ServedStep::Handles(1, SentTask::Gone),
    ServedStep::See(TaskSight::DidNothing),
    ServedStep::Handles(1, SentTask::Control2),
    ServedStep::See(TaskSight::WatchesAndReplies(1)),
    ServedStep::Handles(1, SentTask::Gone),
    ServedStep::See(TaskSight::Sends(&[1])),
];

#[test]
fn the_end_of_a_watched_process_is_told(rt: HostRuntime) {
    assert_eq!(rt; first_wrong(rt.alloc(), Tally::new(), &WATCHED), None);
}

const OWNED: [ServedStep; 5] = [
    ServedStep::Handles(1, SentTask::OwnerCommand(b"x")),
    ServedStep::See(TaskSight::DidNothing),
    ServedStep::Handles(0, SentTask::OwnerCommand(b"x")),
    ServedStep::See(TaskSight::Sends(b"x")),
    ServedStep::End,
];

#[test]
fn an_owner_command_of_another_calls_no_driver(rt: HostRuntime) {
    assert!(rt; leaves_stopped(rt.alloc(), Echo::new(), &OWNED));
}

/// Whether a driver that refuses comes back stopped, for this reason.
fn comes_back(alloc: Global, wanted: StartRefusal) -> bool {
    let Ok(config) = Config::plain(alloc) else {
        return false;
    };
    match Service::open(alloc, Refuse::new(Refused::Errno), &config, 0, 2) {
        Ok(_) => false,
        Err((driver, refusal)) => refusal == wanted && driver.life() == Life::Stopped,
    }
}

#[test]
fn a_driver_that_refuses_comes_back(rt: HostRuntime) {
    assert!(rt; comes_back(rt.alloc(), StartRefusal::Errno));
}
