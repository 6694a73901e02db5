//! The mail that is left in all mailboxes.
ghost use Rattle.std.specs.Prelude.{◌≡◌, ◌<◌, All, length, map, slice_index_or, OnOk, IfOk};
ghost use Rattle.process_end.specs.Mailbox.{Mailbox};
ghost use Rattle.run_end.specs.Mailboxes.{AreMailColumns, AreMailRows, HaveTakenRows, TakesEachRest, TakesRestAt};

use crate::rest::take_rest;
use no_memory::NoMemory;
use port_model::Mail;
use run_lanes::transposed;
use std::alloc::Global;
use std::sync::Wait;
use task_queue::{SendEnd, TakeEnd};

// Takes the rest of the mailbox at a place, where there is an end of it.
fn take_rest_at<R: Wait>(
    rt: &R,
    mailboxes: &mut Vec<TakeEnd<Mail>>,
    mails: &mut Vec<Vec<Mail>>,
    place: usize,
    ends: Vec<SendEnd<Mail>>,
) -> Result<(), NoMemory>
    requires place { (place < length mailboxes.old.items) × (place < length mails.old.items) }
    requires lanes { (m : Mailbox) → All (λ e. e.lane ≡ (slice_index_or mailboxes.old.items place m).lane) ends.items }
    ensures { OnOk result (TakesRestAt place ends.items mailboxes.old.items mailboxes.new.items (map (λ m. m.items) mails.old.items) (map (λ m. m.items) mails.new.items)) }
{
    if ends.is_empty() {
        return Ok(());
    }
    take_rest(rt, &mut mailboxes[place], ends, &mut mails[place])?;
    Ok(())
}

// Takes the rest of each mailbox, of which these are the ends.
fn take_each_rest<R: Wait>(
    rt: &R,
    mailboxes: &mut Vec<TakeEnd<Mail>>,
    mails: &mut Vec<Vec<Mail>>,
    columns: Vec<Vec<SendEnd<Mail>>>,
) -> Result<(), NoMemory>
    requires many { length mails.old.items ≡ length mailboxes.old.items }
    requires ends { AreMailColumns mailboxes.old.items (map (λ c. c.items) columns.items) }
    ensures { OnOk result (TakesEachRest (map (λ c. c.items) columns.items) mailboxes.old.items mailboxes.new.items (map (λ m. m.items) mails.old.items) (map (λ m. m.items) mails.new.items)) }
{
    let mut place = 0;
    'columns: for ends in columns {
        take_rest_at(rt, mailboxes, mails, place, ends)?;
        place += 1;
    }
    Ok(())
}

/// Takes the rest of all mailboxes, of which the ends come port by port: each row is of one port, with an end of each mailbox, in the order of mailboxes. Answers the mail of each, with
/// the rest behind what was there. Where there is no port nothing is taken. Where no memory is found, all is dropped.
pub fn take_all_rest<R: Wait>(
    rt: &R,
    alloc: Global,
    mut mailboxes: Vec<TakeEnd<Mail>>,
    rows: Vec<Vec<SendEnd<Mail>>>,
    mut mails: Vec<Vec<Mail>>,
) -> Result<Vec<Vec<Mail>>, NoMemory>
    requires many { length mails.items ≡ length mailboxes.items }
    requires rows { AreMailRows mailboxes.items (map (λ r. r.items) rows.items) }
    ensures { IfOk result (λ all. HaveTakenRows mailboxes.items (map (λ r. r.items) rows.items) (map (λ m. m.items) mails.items) (map (λ m. m.items) all.items)) }
{
    let columns = transposed(alloc, rows, mailboxes.len())?;
    take_each_rest(rt, &mut mailboxes, &mut mails, columns)?;
    Ok(mails)
}
