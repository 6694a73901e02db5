//! The mail that is left, once the ports have ended.
ghost use Rattle.std.specs.Prelude.{◌≡◌, All, OnOk, IfOk, false};
ghost use Rattle.run_lanes.specs.Ends.{taken_in};
ghost use Rattle.run_end.specs.Rest.{IsAllTaken, TookMore};

use no_memory::NoMemory;
use port_model::Mail;
use run_lanes::take_all_in;
use std::sync::Wait;
use task_queue::{Item, SendEnd, TakeEnd};

/// Takes the next mail, and keeps it unless it resumes. False where there is none. The place is found before the mail is taken, so that none is lost.
fn take_one<R: Wait>(
    rt: &R,
    mailbox: &mut TakeEnd<Mail>,
    mails: &mut Vec<Mail>,
) -> Result<bool, NoMemory>
    ensures more { TookMore mailbox.old mailbox.new mails.old.items mails.new.items }
    ensures all { IfOk result (λ some. some ≡ false → IsAllTaken mailbox.new) }
{
    mails.reserve(1)?;
    let Some(item) = mailbox.take(rt) else {
        return Ok(false);
    };
    let Item { value, .. } = item;
    if !matches!(&value, Mail::Resume { .. }) {
        mails.push_reserved(value);
    }
    Ok(true)
}

/// Takes in the ends that the ports had of this mailbox, in their order, and then all mail that is left in it, behind the mail that is there. Mail that resumes is left out, as it is among
/// what a process takes itself. After `NoMemory` the ends were taken in and each mail that was taken is there: a call with no ends goes on with the others.
pub fn take_rest<R: Wait>(
    rt: &R,
    mailbox: &mut TakeEnd<Mail>,
    ends: Vec<SendEnd<Mail>>,
    mails: &mut Vec<Mail>,
) -> Result<(), NoMemory>
    requires { All (λ e. e.lane ≡ mailbox.old.lane) ends.items }
    ensures more { TookMore (taken_in mailbox.old ends.items) mailbox.new mails.old.items mails.new.items }
    ensures all { OnOk result (IsAllTaken mailbox.new) }
{
    take_all_in(mailbox, ends);
    'mails: for _ in rt.forever() {
        let more = take_one(rt, mailbox, mails)?;
        if !more {
            return Ok(());
        }
    }
    unreachable!()
}
