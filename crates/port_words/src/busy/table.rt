// The table of the two words, its rule, and the kinds of step.
ghost use Rattle.std.specs.Prelude.{◌≡◌, ◌+◌, ◌<◌, ◌≤◌, [], ◌++◌, ◌∷◌, length};
ghost use Rattle.port_words.specs.declared.busy.view.StatMark.{StatMark};
ghost use Rattle.port_words.specs.declared.busy.view.StatMark.TheVariants.{Busy, Free, Closed};
ghost use Rattle.port_words.specs.busy.Parts.{IsBusyTable};
ghost use Rattle.port_words.specs.busy.Steps.{FindsStat, Marks, Learns, SenderHears, PortHears, Adds, Undoes, Removes, first_sender, other_senders, its_weights, no_weights, joined, spent};
ghost use Rattle.port_words.specs.busy.Known.{fresh_port, fresh_senders};

use crate::busy::view::{BusySetup, BusyView, PlannedAdd};
use atomic_table::{Join, Play, Seat, Shared, Split, Table, TableRule};
use std::alloc::Global;

pub(crate) const STAT: usize = 0;

pub(crate) const MSGQ: usize = 1;

pub(crate) type BusyWords = Table<PlannedAdd, BusyView, BusySetup, Telling, Global>;

pub(crate) type SharedBusyWords = Shared<PlannedAdd, BusyView, BusySetup, Telling>;

pub(crate) type BusyWordSeat = Seat<PlannedAdd, BusyView>;

pub(crate) struct Telling;

impl TableRule<PlannedAdd, BusyView, BusySetup> for Telling {
    ghost holds = { IsBusyTable };

    ghost first = { λ setup. fresh_port setup (fresh_senders 0 setup.senders) };
}

pub(crate) struct FindingStat;

impl Play<PlannedAdd, BusyView> for FindingStat {
    ghost then = { λ _. FindsStat };
}

pub(crate) struct MarkingBusy;

impl Play<PlannedAdd, BusyView> for MarkingBusy {
    ghost then = { λ _. Marks Busy };
}

pub(crate) struct MarkingFree;

impl Play<PlannedAdd, BusyView> for MarkingFree {
    ghost then = { λ _. Marks Free };
}

pub(crate) struct MarkingClosed;

impl Play<PlannedAdd, BusyView> for MarkingClosed {
    ghost then = { λ _. Marks Closed };
}

pub(crate) struct Learning;

impl Play<PlannedAdd, BusyView> for Learning {
    ghost then = { λ _. Learns };
}

pub(crate) struct SenderHearing;

impl Play<PlannedAdd, BusyView> for SenderHearing {
    ghost then = { λ _. SenderHears };
}

pub(crate) struct PortHearing;

impl Play<PlannedAdd, BusyView> for PortHearing {
    ghost then = { λ _. PortHears };
}

pub(crate) struct Adding;

impl Play<PlannedAdd, BusyView> for Adding {
    ghost then = { λ step. Adds step.first step.second step.said };
}

pub(crate) struct Undoing;

impl Play<PlannedAdd, BusyView> for Undoing {
    ghost then = { λ step. Undoes step.first step.second };
}

pub(crate) struct Removing;

impl Play<PlannedAdd, BusyView> for Removing {
    ghost then = { λ step. Removes step.first step.second };
}

pub(crate) struct OneSender;

impl Split<BusyView> for OneSender {
    ghost left = { other_senders };

    ghost right = { first_sender };
}

pub(crate) struct Weights;

impl Split<BusyView> for Weights {
    ghost left = { no_weights };

    ghost right = { its_weights };
}

pub(crate) struct Both;

impl Join<BusyView> for Both {
    ghost both = { joined };

    ghost spent = { spent };
}
