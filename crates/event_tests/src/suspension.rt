use port_suspension::{Entry, Suspension, may_resume};
use std::alloc::Global;
use std::process::Abort;
use std::test::Fail;

/// What is done with a suspension, or seen of it, and what has to come of it.
#[derive(Clone, Copy)]
enum SuspendStep {
    /// The process of this entry has a place and is listed, or was listed before.
    List(Entry, bool),
    /// The first entry is this, and stays.
    First(Entry),
    /// The first entry is resumed, and is this.
    Resume(Option<Entry>),
    /// Whether nothing is listed.
    Empty(bool),
}

fn is_send<T: Send>(_value: &T) -> bool {
    true
}

/// Whether a process that has a place is listed.
fn list(suspension: &mut Suspension, entry: Entry) -> Option<bool> {
    let Entry { process, seq } = entry;
    if process as usize >= suspension.places() {
        return None;
    }
    Some(suspension.list(process, seq))
}

/// Whether a step goes so.
fn goes(suspension: &mut Suspension, step: &SuspendStep) -> bool {
    match step {
        SuspendStep::List(entry, wanted) => list(suspension, *entry) == Some(*wanted),
        SuspendStep::First(entry) => suspension.first() == Some(*entry),
        SuspendStep::Resume(entry) => suspension.resume_first() == *entry,
        SuspendStep::Empty(wanted) => suspension.is_empty() == *wanted,
    }
}

/// The number of the first step that goes otherwise, if one does.
fn first_wrong(suspension: &mut Suspension, steps: &[SuspendStep]) -> Option<usize> {
    for (at, step) in steps.iter().enumerate() {
        if !goes(suspension, step) {
            return Some(at);
        }
    }
    None
}

/// Ends the test where a step of a new suspension of so many places goes otherwise.
fn follow<R: Abort>(rt: &R, alloc: Global, places: u32, steps: &[SuspendStep]) -> Result<(), Fail> {
    let mut suspension = Suspension::new(alloc, places)?;
    assert!(rt; is_send(&suspension));
    assert_eq!(rt; first_wrong(&mut suspension, steps), None);
    Ok(())
}

const ZERO: Entry = Entry { process: 0, seq: 1 };

const TWO: Entry = Entry { process: 2, seq: 4 };

const IN_ORDER: [SuspendStep; 10] = [
    SuspendStep::Empty(true),
    SuspendStep::Resume(None),
    SuspendStep::List(TWO, true),
    SuspendStep::List(ZERO, true),
    SuspendStep::First(TWO),
    SuspendStep::Resume(Some(TWO)),
    SuspendStep::First(ZERO),
    SuspendStep::Empty(false),
    SuspendStep::Resume(Some(ZERO)),
    SuspendStep::Empty(true),
];

#[test]
fn processes_are_resumed_in_the_order_in_which_they_were_listed(
    rt: HostRuntime,
) -> Result<(), Fail> {
    follow(&rt, rt.alloc(), 3, &IN_ORDER)
}

const ONE: Entry = Entry { process: 1, seq: 0 };

const ONE_AGAIN: Entry = Entry { process: 1, seq: 3 };

const AGAIN: [SuspendStep; 6] = [
    SuspendStep::List(ONE, true),
    SuspendStep::List(ONE_AGAIN, false),
    SuspendStep::Resume(Some(ONE)),
    SuspendStep::Empty(true),
    SuspendStep::List(ONE_AGAIN, true),
    SuspendStep::First(ONE_AGAIN),
];

#[test]
fn a_process_is_listed_again_once_it_was_resumed(rt: HostRuntime) -> Result<(), Fail> {
    follow(&rt, rt.alloc(), 2, &AGAIN)
}

const BUSY: u64 = 1_099_511_627_784;

const FREE: u64 = 2_199_023_255_555;

/// A word MSGQ, whether the port is open, whether it is busy, and whether the first process may be resumed then.
const WORDS: [(u64, bool, bool, bool); 4] = [
    (FREE, true, false, true),
    (BUSY, true, false, false),
    (FREE, true, true, false),
    (BUSY, false, true, true),
];

#[test]
fn a_close_and_a_free_port_resume(rt: HostRuntime) {
    for (msgq, is_open, is_busy, wanted) in &WORDS {
        assert!(rt; may_resume(*msgq, *is_open, *is_busy) == *wanted);
    }
}
