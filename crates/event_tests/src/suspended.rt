use std::test::Fail;
use suspend_list::{Entry, StopNote, SuspendList, may_go};

const NOTE: StopNote = StopNote {
    port: 0,
    seq: 3,
    msgq: 1_099_511_627_784,
};

/// The words MSGQ and STAT, and whether the process of the note may go on by them.
const WORDS: [(u64, u64, bool); 3] = [
    (1_099_511_627_780, 0, false),
    (2_199_023_255_555, 0, true),
    (1_099_511_627_780, 6, true),
];

#[test]
fn a_suspended_process_goes_on_in_the_next_period_or_at_the_close(rt: HostRuntime) {
    for (msgq, stat, wanted) in &WORDS {
        assert!(rt; may_go(&NOTE, *msgq, *stat) == *wanted);
    }
}

const ZERO: Entry = Entry { process: 0, seq: 5 };

const ONE: Entry = Entry { process: 1, seq: 0 };

const ONE_AGAIN: Entry = Entry { process: 1, seq: 1 };

/// What a list answers that is empty once two entries were dropped.
fn last_entries(list: &mut SuspendList) -> [Option<Entry>; 5] {
    [
        list.drop_first(),
        list.first(),
        list.drop_first(),
        list.drop_first(),
        list.first(),
    ]
}

#[test]
fn processes_are_resumed_in_the_order_of_their_suspension(rt: HostRuntime) -> Result<(), Fail> {
    let mut list = SuspendList::new(rt.alloc(), 2)?;
    list.list(ONE);
    list.list(ZERO);
    assert!(rt; list.first() == Some(ONE) && list.drop_first() == Some(ONE));
    list.list(ONE_AGAIN);
    assert!(rt;
        last_entries(&mut list) == [Some(ZERO), Some(ONE_AGAIN), Some(ONE_AGAIN), None, None]
    );
    Ok(())
}
