use port_events::{
    AfterTask, Dir, Effect, EventFault, NoMemory, PollAsk, PortEvents, Signal, StartFault,
};
use std::alloc::Global;
use std::process::Abort;
use std::snapshot::Snapshot;
use std::sync::Wait;
use std::test::Fail;
use task_queue::{TakeEnd, lane};

const RUNS: AfterTask = AfterTask {
    closed: false,
    stops: false,
};

const CLOSES: AfterTask = AfterTask {
    closed: true,
    stops: false,
};

const STOPS: AfterTask = AfterTask {
    closed: true,
    stops: true,
};

/// An effect of a row: an event is selected in a direction, or given up.
#[derive(Clone, Copy)]
enum EventEffect {
    Select(u32, Dir),
    Unuse(u32),
}

/// The signal of a task.
#[derive(Clone, Copy)]
enum RowSignal {
    Close,
    Ready(u32, Dir),
    Dropped(u32),
}

/// What a port does, and what has to come of it.
#[derive(Clone, Copy)]
enum EventStep {
    /// A start with these effects is refused so, or goes.
    Start(&'static [EventEffect], Option<StartFault>),
    /// A handled task with these effects gives these events back.
    Handle(RowSignal, &'static [EventEffect], AfterTask, &'static [u32]),
    /// A handled close with these effects, after which the driver runs on, is refused so.
    Fault(&'static [EventEffect], EventFault),
    Late(RowSignal),
    /// These asks lie in the lane.
    Ask(&'static [PollAsk]),
    See(EventLook),
}

/// What is seen of a port's events.
#[derive(Clone, Copy)]
enum EventLook {
    /// These events are held.
    Held(&'static [u32]),
    Ready(u32, Dir, bool),
    Waiting(u32, bool),
    GivenBack(bool),
}

fn effect_of(effect: EventEffect) -> Effect {
    match effect {
        EventEffect::Select(event, dir) => {
            Effect::Select {
                event,
                dir,
                on: true,
            }
        }
        EventEffect::Unuse(event) => Effect::Unuse(event),
    }
}

fn effects_of(alloc: Global, row: &[EventEffect]) -> Result<Vec<Effect>, NoMemory> {
    let mut effects = Vec::new(alloc);
    for effect in row {
        effects.push(effect_of(*effect))?;
    }
    Ok(effects)
}

fn signal_of(signal: RowSignal) -> Signal {
    match signal {
        RowSignal::Close => Signal::Close,
        RowSignal::Ready(event, dir) => Signal::Ready { event, dir },
        RowSignal::Dropped(event) => Signal::Dropped(event),
    }
}

/// The asks that lie in the lane, eight at most.
fn asked<R: Wait>(
    rt: &R,
    alloc: Global,
    lane: &mut TakeEnd<PollAsk>,
) -> Result<Vec<PollAsk>, NoMemory> {
    let mut asks = Vec::new(alloc);
    for _ in 0..8u8 {
        if let Some(item) = lane.take(rt) {
            asks.push(item.value)?;
        }
    }
    Ok(asks)
}

/// The events of port 3, and the poller's end of their lane.
#[derive(Drop)]
struct PolledPort {
    alloc: Global,
    events: PortEvents,
    lane: TakeEnd<PollAsk>,
}

impl PolledPort {
    fn new(alloc: Global) -> Result<PolledPort, NoMemory> {
        let (end, lane) = lane::<PollAsk>(alloc, Snapshot::of(&()))?;
        Ok(PolledPort {
            alloc,
            events: PortEvents::new(3, end),
            lane,
        })
    }

    /// Why a start with these effects is refused, if it is.
    fn start_fault<R: Wait>(&mut self, rt: &R, row: &[EventEffect]) -> Option<StartFault> {
        match &effects_of(self.alloc, row) {
            Ok(effects) => self.events.start(rt, self.alloc, effects.as_slice()).err(),
            Err(_) => Some(StartFault::NoMemory),
        }
    }

    /// Whether the asks that lie in the lane are these.
    fn asks<R: Wait>(&mut self, rt: &R, wanted: &[PollAsk]) -> bool {
        matches!(&asked(rt, self.alloc, &mut self.lane), Ok(asks) if asks.as_slice() == wanted)
    }

    /// The events that a handled task gives back.
    fn handled<R: Wait>(
        &mut self,
        rt: &R,
        signal: RowSignal,
        row: &[EventEffect],
        ending: AfterTask,
    ) -> Result<Vec<u32>, EventFault> {
        let signal = signal_of(signal);
        match &effects_of(self.alloc, row) {
            Ok(effects) => {
                self.events
                    .note_handled(rt, self.alloc, &signal, effects.as_slice(), ending)
            }
            Err(_) => Err(EventFault::NoMemory),
        }
    }

    /// Why a handled close is refused, after which the driver runs on, if it is.
    fn fault<R: Wait>(&mut self, rt: &R, row: &[EventEffect]) -> Option<EventFault> {
        self.handled(rt, RowSignal::Close, row, RUNS).err()
    }

    /// Whether what is seen is so.
    fn shows(&self, look: EventLook) -> bool {
        match look {
            EventLook::Held(wanted) => self.events.held().as_slice() == wanted,
            EventLook::Ready(event, dir, wanted) => self.events.is_ready(event, dir) == wanted,
            EventLook::Waiting(event, wanted) => self.events.is_waiting(event) == wanted,
            EventLook::GivenBack(wanted) => self.events.is_given_back() == wanted,
        }
    }

    /// Whether a step goes so.
    fn goes<R: Wait>(&mut self, rt: &R, step: &EventStep) -> bool {
        match step {
            EventStep::Start(row, fault) => self.start_fault(rt, row) == *fault,
            EventStep::Handle(signal, row, ending, wanted) => {
                matches!(&self.handled(rt, *signal, row, *ending), Ok(events) if events.as_slice() == *wanted)
            }
            EventStep::Fault(row, fault) => self.fault(rt, row) == Some(*fault),
            EventStep::Late(signal) => {
                self.events.note_late(&signal_of(*signal));
                true
            }
            EventStep::Ask(asks) => self.asks(rt, asks),
            EventStep::See(look) => self.shows(*look),
        }
    }

    /// The number of the first step that goes otherwise, if one does.
    fn first_wrong<R: Wait>(&mut self, rt: &R, steps: &[EventStep]) -> Option<usize> {
        for (at, step) in steps.iter().enumerate() {
            if !self.goes(rt, step) {
                return Some(at);
            }
        }
        None
    }
}

/// Ends the test where a step of a new port goes otherwise.
fn follow<R: Wait + Abort>(rt: &R, alloc: Global, steps: &[EventStep]) -> Result<(), NoMemory> {
    let mut port = PolledPort::new(alloc)?;
    assert_eq!(rt; port.first_wrong(rt, steps), None);
    Ok(())
}

const READ_OF_1: PollAsk = PollAsk::Arm {
    port: 3,
    event: 1,
    dir: Dir::Read,
};

const WRITE_OF_1: PollAsk = PollAsk::Arm {
    port: 3,
    event: 1,
    dir: Dir::Write,
};

const READ_OF_2: PollAsk = PollAsk::Arm {
    port: 3,
    event: 2,
    dir: Dir::Read,
};

const READ_OF_4: PollAsk = PollAsk::Arm {
    port: 3,
    event: 4,
    dir: Dir::Read,
};

const WRITE_OF_5: PollAsk = PollAsk::Arm {
    port: 3,
    event: 5,
    dir: Dir::Write,
};

const DROP_OF_1: PollAsk = PollAsk::Drop { port: 3, event: 1 };

const DROP_OF_5: PollAsk = PollAsk::Drop { port: 3, event: 5 };

const GIVEN_UP: [EventStep; 9] = [
    EventStep::Start(
        &[
            EventEffect::Select(2, Dir::Read),
            EventEffect::Select(1, Dir::Write),
            EventEffect::Select(1, Dir::Read),
        ],
        None,
    ),
    EventStep::Ask(&[READ_OF_1, WRITE_OF_1, READ_OF_2]),
    EventStep::Handle(
        RowSignal::Ready(1, Dir::Read),
        &[EventEffect::Unuse(1)],
        RUNS,
        &[],
    ),
    EventStep::Ask(&[DROP_OF_1]),
    EventStep::See(EventLook::Waiting(1, true)),
    EventStep::See(EventLook::Held(&[2])),
    EventStep::Handle(RowSignal::Dropped(1), &[], RUNS, &[1]),
    EventStep::Ask(&[]),
    EventStep::See(EventLook::Waiting(1, false)),
];

#[test]
fn an_event_that_is_given_up_while_it_is_armed_waits_for_the_poller(
    rt: HostRuntime,
) -> Result<(), Fail> {
    follow(&rt, rt.alloc(), &GIVEN_UP)?;
    Ok(())
}

const CLOSED: [EventStep; 10] = [
    EventStep::Start(
        &[
            EventEffect::Select(5, Dir::Write),
            EventEffect::Select(4, Dir::Read),
        ],
        None,
    ),
    EventStep::Ask(&[READ_OF_4, WRITE_OF_5]),
    EventStep::Handle(RowSignal::Close, &[], CLOSES, &[]),
    EventStep::See(EventLook::Ready(4, Dir::Read, false)),
    EventStep::See(EventLook::Ready(5, Dir::Write, true)),
    EventStep::Late(RowSignal::Ready(4, Dir::Read)),
    EventStep::Handle(RowSignal::Ready(5, Dir::Write), &[], STOPS, &[4]),
    EventStep::Ask(&[WRITE_OF_5, DROP_OF_5]),
    EventStep::See(EventLook::Held(&[])),
    EventStep::See(EventLook::GivenBack(false)),
];

#[test]
fn a_close_ends_reading_and_the_stop_ends_what_is_left(rt: HostRuntime) -> Result<(), Fail> {
    follow(&rt, rt.alloc(), &CLOSED)?;
    Ok(())
}

const REFUSED: [EventStep; 3] = [
    EventStep::Start(
        &[EventEffect::Select(1, Dir::Read), EventEffect::Unuse(1)],
        Some(StartFault::GaveUp),
    ),
    EventStep::Start(&[EventEffect::Select(1, Dir::Read)], None),
    EventStep::Fault(
        &[EventEffect::Unuse(1), EventEffect::Select(1, Dir::Read)],
        EventFault::NoRoom,
    ),
];

#[test]
fn a_start_that_gives_up_and_a_selection_while_waiting_are_refused(
    rt: HostRuntime,
) -> Result<(), Fail> {
    follow(&rt, rt.alloc(), &REFUSED)?;
    Ok(())
}

/// A selection for reading of each event below this one.
fn selections(alloc: Global, count: u32) -> Result<Vec<EventEffect>, NoMemory> {
    let mut row = Vec::new(alloc);
    for event in 0..count {
        row.push(EventEffect::Select(event, Dir::Read))?;
    }
    Ok(row)
}

/// Why the start of a port with so many events is refused, if it is, and why then the selection of event 64 is.
fn faults<R: Wait>(
    rt: &R,
    alloc: Global,
    count: u32,
) -> Result<(Option<StartFault>, Option<EventFault>), NoMemory> {
    let mut port = PolledPort::new(alloc)?;
    let row = selections(alloc, count)?;
    let start = port.start_fault(rt, row.as_slice());
    let then = port.fault(rt, &[EventEffect::Select(64, Dir::Read)]);
    Ok((start, then))
}

#[test]
fn a_port_has_at_most_64_events(rt: HostRuntime) -> Result<(), Fail> {
    let (start, _) = faults(&rt, rt.alloc(), 65)?;
    assert!(rt; start == Some(StartFault::NoRoom));
    assert!(rt; faults(&rt, rt.alloc(), 64)? == (None, Some(EventFault::NoRoom)));
    Ok(())
}
