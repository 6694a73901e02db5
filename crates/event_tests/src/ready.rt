use outside::MemPoll;
use port_model::Dir;
use ready_select::{Delivered, NotUsed, PollAsk, PollTable, Polled, Selector, Unused, poll_round};
use std::alloc::Global;
use std::process::Abort;
use std::snapshot::Snapshot;
use std::sync::Wait;
use std::test::Fail;
use task_queue::{NoMemory, SendEnd, TakeEnd, lane};

/// What a port asks or a poller does, and what has to come of it.
#[derive(Clone, Copy)]
enum PollStep {
    /// The port asks this.
    Put(&'static [PollAsk]),
    /// A round ends so, and the rounds until then found these.
    Round(Polled, &'static [PollAsk]),
}

const READ_OF_0: PollAsk = PollAsk::Arm {
    port: 3,
    event: 0,
    dir: Dir::Read,
};

/// A poller over events of memory, a port's end of its lane, and what its rounds found.
#[derive(Drop)]
struct MemPoller {
    alloc: Global,
    port: SendEnd<PollAsk>,
    asks: TakeEnd<PollAsk>,
    poll: MemPoll,
    table: PollTable,
    found: Vec<PollAsk>,
}

impl MemPoller {
    fn new(alloc: Global) -> Result<MemPoller, NoMemory> {
        let (port, asks) = lane::<PollAsk>(alloc, Snapshot::of(&()))?;
        Ok(MemPoller {
            alloc,
            port,
            asks,
            poll: MemPoll::new(alloc),
            table: PollTable::new(alloc),
            found: Vec::new(alloc),
        })
    }

    /// A poller whose first wait fails.
    fn that_fails(alloc: Global) -> Result<MemPoller, NoMemory> {
        let mut poller = MemPoller::new(alloc)?;
        poller.poll.fail_wait(0)?;
        Ok(poller)
    }

    /// Whether the port's asks are put.
    fn puts<R: Wait>(&mut self, rt: &R, asks: &[PollAsk]) -> bool {
        for ask in asks {
            if self.port.put(rt, *ask).is_err() {
                return false;
            }
        }
        true
    }

    /// Makes a round.
    fn round<R: Wait>(&mut self, rt: &R) -> Polled {
        poll_round(
            rt,
            self.alloc,
            &mut self.poll,
            &mut self.table,
            &mut self.asks,
            &mut self.found,
        )
    }

    /// Whether a round ends so, and the rounds until then found these.
    fn finds<R: Wait>(&mut self, rt: &R, polled: Polled, found: &[PollAsk]) -> bool {
        self.round(rt) == polled && self.found.as_slice() == found
    }

    /// Whether a step goes so.
    fn goes<R: Wait>(&mut self, rt: &R, step: &PollStep) -> bool {
        match step {
            PollStep::Put(asks) => self.puts(rt, asks),
            PollStep::Round(polled, found) => self.finds(rt, *polled, found),
        }
    }

    /// The number of the first step that goes otherwise, if one does.
    fn first_wrong<R: Wait>(&mut self, rt: &R, steps: &[PollStep]) -> Option<usize> {
        for (at, step) in steps.iter().enumerate() {
            if !self.goes(rt, step) {
                return Some(at);
            }
        }
        None
    }
}

/// Ends the test where a step of a poller goes otherwise.
fn follow<R: Wait + Abort>(rt: &R, poller: MemPoller, steps: &[PollStep]) {
    let mut poller = poller;
    assert_eq!(rt; poller.first_wrong(rt, steps), None);
}

const ANSWERED: [PollStep; 2] = [
    PollStep::Put(&[READ_OF_0]),
    PollStep::Round(Polled::Round, &[READ_OF_0]),
];

#[test]
fn an_answered_event_is_found(rt: HostRuntime) -> Result<(), Fail> {
    follow(&rt, MemPoller::new(rt.alloc())?, &ANSWERED);
    Ok(())
}

const DROPPED: PollAsk = PollAsk::Drop { port: 3, event: 7 };

const FAILED: [PollStep; 5] = [
    PollStep::Put(&[READ_OF_0, DROPPED]),
    PollStep::Round(Polled::Failed, &[DROPPED]),
    PollStep::Round(Polled::Round, &[DROPPED, READ_OF_0]),
    PollStep::Put(&[PollAsk::Finish]),
    PollStep::Round(Polled::Finished, &[DROPPED, READ_OF_0]),
];

#[test]
fn nothing_is_lost_where_a_wait_fails(rt: HostRuntime) -> Result<(), Fail> {
    follow(&rt, MemPoller::that_fails(rt.alloc())?, &FAILED);
    Ok(())
}

/// What is done with a selector, or seen of it, and what has to come of it.
#[derive(Clone, Copy)]
enum SelectStep {
    /// The arming of an event answers this.
    Arm(u32, Dir, Result<(), NotUsed>),
    /// Event 0 is delivered for reading as this.
    Deliver(Delivered),
    /// This event is given up as this.
    GiveUp(u32, Unused),
    /// The drop of event 0 is told as this.
    Drop(Delivered),
    /// Event 0 waits for the poller: it is armed for reading, and is no longer selected.
    Wait,
    /// These events are held.
    Hold(&'static [u32]),
}

/// A selector of which event 0 is selected for reading.
fn reading_of_0() -> Selector {
    let mut events = Selector::new();
    events.select(0, Dir::Read, true);
    events
}

/// Whether event 0 waits for the poller: it is armed for reading, and is no longer selected.
fn waits(events: &Selector) -> bool {
    events.is_waiting(0) && !events.is_selected(0, Dir::Read) && events.is_armed(0, Dir::Read)
}

/// Whether the events that are held are these.
fn holds(events: &Selector, wanted: &[u32]) -> bool {
    events.held() == wanted
}

/// Whether a step of a selector goes so.
fn goes(events: &mut Selector, step: &SelectStep) -> bool {
    match step {
        SelectStep::Arm(event, dir, answer) => events.arm(*event, *dir) == *answer,
        SelectStep::Deliver(wanted) => events.deliver(0, Dir::Read) == *wanted,
        SelectStep::GiveUp(event, wanted) => events.unuse(*event) == *wanted,
        SelectStep::Drop(wanted) => events.dropped(0) == *wanted,
        SelectStep::Wait => waits(events),
        SelectStep::Hold(wanted) => holds(events, wanted),
    }
}

/// The number of the first step that goes otherwise, if one does.
fn first_wrong(events: &mut Selector, steps: &[SelectStep]) -> Option<usize> {
    for (at, step) in steps.iter().enumerate() {
        if !goes(events, step) {
            return Some(at);
        }
    }
    None
}

const GIVEN_UP: [SelectStep; 12] = [
    SelectStep::Arm(0, Dir::Read, Ok(())),
    SelectStep::Arm(1, Dir::Write, Err(NotUsed { event: 1 })),
    SelectStep::Deliver(Delivered::Call),
    SelectStep::Deliver(Delivered::Stale),
    SelectStep::Arm(0, Dir::Read, Ok(())),
    SelectStep::GiveUp(1, Unused::Now),
    SelectStep::GiveUp(0, Unused::Later),
    SelectStep::Wait,
    SelectStep::Hold(&[0]),
    SelectStep::Drop(Delivered::Stopped),
    SelectStep::Drop(Delivered::Stale),
    SelectStep::Hold(&[]),
];

#[test]
fn a_program_with_two_events_gives_one_up(rt: HostRuntime) {
    assert_eq!(rt; first_wrong(&mut reading_of_0(), &GIVEN_UP), None);
}
