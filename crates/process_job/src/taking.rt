// How a process takes its mail.
ghost use Rattle.std.specs.Prelude.{◌≡◌, ◌++◌, ◌∷◌, [], ℕ, Some, OnOk, IfOk};
ghost use Rattle.process_end.specs.Mailbox.{FoundNone};
ghost use Rattle.process_job.specs.Mails.{HasReply, readable};
ghost use Rattle.process_job.specs.Going.{state, Waits};
ghost use Rattle.process_job.specs.Taking.{next_of};

use crate::log::MailLog;
use no_memory::NoMemory;
use port_model::Mail;
use process_end::Proc;
use std::sync::Wait;

/// What a process took of its mailbox.
#[derive(Clone, Copy)]
pub(crate) enum NextMail {
    /// The mailbox was empty.
    Nothing,
    /// The answer of this port to the signal of this number.
    Reply { port: u32, seq: u64 },
    /// A mail that resumes, which isn't kept.
    Resume,
    Other,
}

/// What kind of mail this is.
fn kind_of(mail: &Mail) -> NextMail
    ensures { result ≡ next_of mail.now }
{
    match mail {
        Mail::Reply { port, seq, .. } => NextMail::Reply {
            port: *port,
            seq: *seq,
        },
        Mail::Resume { .. } => NextMail::Resume,
        _ => NextMail::Other,
    }
}

/// Keeps a mail, unless it resumes.
pub(crate) fn keep(log: &mut MailLog, mail: Mail) -> Result<NextMail, NoMemory>
    ensures kept { OnOk result (log.new ≡ log.old ++ readable (mail ∷ [])) }
    ensures kind { IfOk result (λ next. next ≡ next_of mail) }
    ensures reply { IfOk result (λ next. (port seq : ℕ) → next ≡ NextMail.Reply port seq → HasReply port (Some seq) log.new) }
{
    let kind = kind_of(&mail);
    if matches!(kind, NextMail::Resume) {
        return Ok(kind);
    }
    log.add(mail)?;
    Ok(kind)
}

/// Takes the next mail, and keeps it unless it resumes.
pub(crate) fn take_next<R: Wait>(
    rt: &R,
    log: &mut MailLog,
    proc: &mut Proc,
) -> Result<NextMail, NoMemory>
    ensures waits { OnOk result (Waits (state proc.old log.old) (state proc.new log.new)) }
    ensures reply { IfOk result (λ next. (port seq : ℕ) → next ≡ NextMail.Reply port seq → HasReply port (Some seq) log.new) }
    ensures nothing { IfOk result (λ next. next ≡ NextMail.Nothing → FoundNone proc.old.mailbox proc.new.mailbox) }
{
    let Some(mail) = proc.mail(rt) else {
        return Ok(NextMail::Nothing);
    };
    Ok(keep(log, mail)?)
}
