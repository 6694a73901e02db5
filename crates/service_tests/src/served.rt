//! A port that a driver serves, whose tasks are handled one after another, and what the last one made.
ghost use Rattle.std.specs.Prelude.{◌≡◌, IfSome};
ghost use Rattle.port_driver.specs.declared.life.Life.TheVariants.{Started};

use port_driver::{Config, Driver, Life};
use port_model::{Effect, IoVec, Piece, Reason, Sender, Signal};
use port_service::{Caller, Handled, PortStanding, Service};
use std::alloc::Global;

/// What a process sends.
#[derive(Clone, Copy)]
pub(crate) enum SentTask {
    Command(&'static [u8]),
    OwnerCommand(&'static [u8]),
    /// Control 2, on no bytes.
    Control2,
    /// It has ended.
    Gone,
    Close,
    Kill,
}

/// What is seen of a port.
#[derive(Clone, Copy)]
pub(crate) enum TaskSight {
    /// The last task had no effect.
    DidNothing,
    /// The last task had one effect, a message of these bytes.
    Sends(&'static [u8]),
    /// The last task had two effects: this process is watched, and an answer.
    WatchesAndReplies(u32),
    /// The last task closed the port normally.
    ClosedNormally,
}

#[derive(Clone, Copy)]
pub(crate) enum ServedStep {
    /// What this process sends is handled, and the driver stays started.
    Handles(u32, SentTask),
    /// What this process sends is handled, and the driver is stopped.
    Stops(u32, SentTask),
    See(TaskSight),
    /// The driver is stopped, if it is started.
    End,
}

/// The service of a port whose driver is started.
#[derive(Drop)]
struct StartedService<D: Driver> {
    service: Service<D>,
    ghost started: { service.stage ≡ Started },
}

/// The service of a port, while its driver is started or once it is stopped, and what the last task made.
#[derive(Drop)]
pub(crate) struct ServedDriver<D: Driver> {
    alloc: Global,
    started: Option<StartedService<D>>,
    stopped: Option<Service<D>>,
    made: Option<Handled>,
}

/// A service of a fresh driver, for process 0 of two.
fn service<D: Driver>(alloc: Global, driver: D) -> Option<Service<D>>
    ensures { IfSome result (λ service. service.stage ≡ Life.Started) }
{
    if driver.life() != Life::Fresh {
        return None;
    }
    let config = Config::plain(alloc).ok()?;
    match Service::open(alloc, driver, &config, 0, 2) {
        Ok((service, _)) => Some(service),
        Err(_) => None,
    }
}

/// A vector of these bytes.
fn vector(alloc: Global, bytes: &[u8]) -> Option<IoVec> {
    let piece = Piece::of_slice(alloc, bytes).ok()?;
    Some(IoVec::of_piece(alloc, piece))
}

/// The signal of what is sent.
fn signal(alloc: Global, sent: SentTask) -> Option<Signal> {
    Some(match sent {
        SentTask::Command(bytes) => Signal::Command(vector(alloc, bytes)?),
        SentTask::OwnerCommand(bytes) => Signal::OwnerCommand(vector(alloc, bytes)?),
        SentTask::Control2 => Signal::Control {
            op: 2,
            bytes: Piece::empty(),
        },
        SentTask::Gone => Signal::Gone(Reason::normal()),
        SentTask::Close => Signal::Close,
        SentTask::Kill => Signal::Exit(Reason::of_bytes(b"kill").ok()?),
    })
}

/// The reason for which what is sent closes an open port, if it does.
fn why(sent: SentTask) -> Option<Reason> {
    match sent {
        SentTask::Close => Some(Reason::normal()),
        SentTask::Kill => Reason::of_bytes(b"kill").ok(),
        _ => None,
    }
}

/// Process 0 owns the port.
fn caller(process: u32) -> Caller {
    Caller {
        from: Sender::Process(process),
        process,
        owns: process == 0,
    }
}

impl<D: Driver> ServedDriver<D> {
    /// A port that a fresh driver serves.
    fn open(alloc: Global, driver: D) -> Option<ServedDriver<D>> {
        let service = service(alloc, driver)?;
        Some(ServedDriver {
            alloc,
            started: Some(StartedService { service }),
            stopped: None,
            made: None,
        })
    }

    /// Handles a signal of this process, which closes an open port for this reason, if it does.
    fn handle(&mut self, process: u32, signal: &Signal, why: Option<Reason>) -> bool {
        let Some(StartedService { mut service }) = self.started.take() else {
            return false;
        };
        let caller = caller(process);
        let stands = PortStanding {
            closing: false,
            held: &[],
        };
        let Ok(made) = service.handle(self.alloc, caller, signal, why, stands) else {
            return false;
        };
        if made.stops {
            self.stopped = Some(service);
        } else {
            self.started = Some(StartedService { service });
        }
        self.made = Some(made);
        true
    }

    /// Handles what this process sends.
    fn take(&mut self, process: u32, sent: SentTask) -> bool {
        match &signal(self.alloc, sent) {
            Some(signal) => self.handle(process, signal, why(sent)),
            None => false,
        }
    }

    /// Stops the driver.
    fn end(&mut self) -> bool {
        if let Some(StartedService { mut service }) = self.started.take() {
            service.end();
            self.stopped = Some(service);
        }
        true
    }

    /// Whether a step goes so.
    fn goes(&mut self, step: ServedStep) -> bool {
        match step {
            ServedStep::Handles(process, sent) => self.take(process, sent)
                && self.started.is_some(),
            ServedStep::Stops(process, sent) => self.take(process, sent) && self.stopped.is_some(),
            ServedStep::See(sight) => matches!(&self.made, Some(made) if shows(made, sight)),
            ServedStep::End => self.end(),
        }
    }

    /// The number of the first step that goes otherwise, if one does.
    fn first_wrong(&mut self, steps: &[ServedStep]) -> Option<usize> {
        for (at, step) in steps.iter().enumerate() {
            if !self.goes(*step) {
                return Some(at);
            }
        }
        None
    }

    /// Whether the driver is stopped.
    fn leaves_driver_stopped(self) -> bool {
        let ServedDriver { stopped, .. } = self;
        match stopped {
            Some(service) => is_stopped(service),
            None => false,
        }
    }
}

/// Whether the driver that comes back of a service is stopped.
fn is_stopped<D: Driver>(service: Service<D>) -> bool {
    service.into_driver().life() == Life::Stopped
}

/// Whether a task made this.
fn shows(made: &Handled, sight: TaskSight) -> bool {
    match (sight, made.effects.as_slice()) {
        (TaskSight::DidNothing, []) => true,
        (TaskSight::Sends(wanted), [Effect::Message { bytes, .. }]) => bytes.as_slice() == wanted,
        (TaskSight::WatchesAndReplies(wanted), [Effect::Watch(process), Effect::Reply(_)]) => {
            *process == wanted
        }
        (TaskSight::ClosedNormally, _) => {
            matches!(&made.reason, Some(reason) if reason.is_normal())
        }
        _ => false,
    }
}

/// The number of the first step of a port that goes otherwise, if one does, or of the step behind the last where the driver doesn't start.
pub(crate) fn first_wrong<D: Driver>(
    alloc: Global,
    driver: D,
    steps: &[ServedStep],
) -> Option<usize> {
    match ServedDriver::open(alloc, driver) {
        Some(mut port) => port.first_wrong(steps),
        None => Some(steps.len()),
    }
}

/// Whether the steps of a port go so, and leave its driver stopped.
pub(crate) fn leaves_stopped<D: Driver>(alloc: Global, driver: D, steps: &[ServedStep]) -> bool {
    match ServedDriver::open(alloc, driver) {
        Some(mut port) => port.first_wrong(steps).is_none() && port.leaves_driver_stopped(),
        None => false,
    }
}
