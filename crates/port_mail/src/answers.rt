//! What a signal or an effect sends, as posts that are still to be put.
ghost use Rattle.std.specs.Prelude.{◌≡◌, ◌∷◌, [], codes, if◌then◌else◌, IfOk};
ghost use Rattle.port_links.specs.port_history.Opening.{Opening};
ghost use Rattle.port_links.specs.port_history.Ties.{Ties};
ghost use Rattle.port_links.specs.port_history.Mail.{send, effect_mail, answer_of, answer_mail, answers, late_mail, closed_mail};
ghost use Rattle.port_links.specs.Posts.{sent_of, exit_of};
ghost use Rattle.port_mail.specs.Rows.{sent_by, IsHandling};

use crate::{Effect, Handling, Mail, NoMemory, Post, Sender, Signal};
use port_model::{Answer, Reason};

/// What an effect sends to the owner. Its bytes are shared, not copied.
pub(crate) fn effect_post(port: u32, owner: u32, effect: &Effect) -> Result<Option<Post>, NoMemory>
    ensures { IfOk result (λ post. sent_by post ≡ effect_mail port owner effect.now) }
{
    match effect {
        Effect::Message { flag, bytes } => {
            let mail = Mail::Message {
                port,
                flag: *flag,
                bytes: bytes.share()?,
            };
            Ok(Some(Post { to: owner, mail }))
        }
        Effect::Eof => Ok(Some(Post {
            to: owner,
            mail: Mail::Eof(port),
        })),
        Effect::Status(status) => Ok(Some(Post {
            to: owner,
            mail: Mail::Status {
                port,
                status: *status,
            },
        })),
        _ => Ok(None),
    }
}

/// The driver's answer among the effects of a control or a call. Its bytes are shared, not copied.
fn answer_of(effects: &[Effect]) -> Result<Answer, NoMemory>
    ensures { IfOk result (λ answer. answer ≡ answer_of effects.now) }
{
    for effect in effects {
        match effect {
            Effect::Reply(bytes) => return Ok(Answer::Bytes(bytes.share()?)),
            Effect::ReplyBadarg => return Ok(Answer::Badarg),
            _ => {}
        }
    }
    Ok(Answer::Badarg)
}

fn reply(port: u32, to: u32, seq: u64, answer: Answer) -> Post
    ensures { sent_of result ≡ send to (Mail.Reply port seq answer) }
{
    Post {
        to,
        mail: Mail::Reply { port, seq, answer },
    }
}

fn exit(port: u32, to: u32, reason: Reason) -> Post
    ensures { sent_of result ≡ exit_of port reason to }
{
    Post {
        to,
        mail: Mail::Exit { port, reason },
    }
}

/// The answer to a connect.
fn connect_answer(may_own: bool) -> Answer
    ensures { result ≡ (if may_own then Answer.True else Answer.Badarg) }
{
    if may_own {
        Answer::True
    } else {
        Answer::Badarg
    }
}

/// Tells the owner of an owner form, unless it could be done.
fn bad_signal_unless(done: bool, port: u32, owner: u32) -> Option<Post>
    ensures { sent_by result ≡ (if done then [] else exit_of port (codes "badsig") owner ∷ []) }
{
    if done {
        return None;
    }
    Some(exit(port, owner, Reason::badsig()))
}

/// Answers an owner's connect, or tells the owner that it can't be done.
fn owner_connect_post(done: bool, port: u32, owner: u32, from: u32) -> Post
    ensures { sent_of result ≡ (if done then send from (Mail.Connected port) else exit_of port (codes "badsig") owner) }
{
    if !done {
        return exit(port, owner, Reason::badsig());
    }
    Post {
        to: from,
        mail: Mail::Connected(port),
    }
}

/// What a handled signal of a process sends after the effects of its row.
fn process_answer(
    handling: Handling,
    from: u32,
    effects: &[Effect],
    signal: &Signal,
) -> Result<Option<Post>, NoMemory>
    ensures { IfOk result (λ post. (opening : Opening) (ties : Ties) → IsHandling handling opening ties signal.now
        → sent_by post ≡ answer_mail opening ties from handling.seq effects.now signal.now) }
{
    let Handling {
        port,
        owner,
        may_own,
        from: _,
        seq,
    } = handling;
    let owns = from == owner;
    match signal {
        Signal::OwnerCommand(_) => Ok(bad_signal_unless(owns, port, owner)),
        Signal::OwnerClose => Ok(bad_signal_unless(owns, port, owner)),
        Signal::Control { .. } => Ok(Some(reply(port, from, seq, answer_of(effects)?))),
        Signal::Call { .. } => Ok(Some(reply(port, from, seq, answer_of(effects)?))),
        Signal::Close => Ok(Some(reply(port, from, seq, Answer::True))),
        Signal::Connect(_) => Ok(Some(reply(port, from, seq, connect_answer(may_own)))),
        Signal::OwnerConnect(_) => Ok(Some(owner_connect_post(owns && may_own, port, owner, from))),
        _ => Ok(None),
    }
}

/// What a handled signal sends after the effects of its row: only processes are answered.
pub(crate) fn answer_post(
    handling: Handling,
    effects: &[Effect],
    signal: &Signal,
) -> Result<Option<Post>, NoMemory>
    ensures { IfOk result (λ post. (opening : Opening) (ties : Ties) → IsHandling handling opening ties signal.now
        → sent_by post ≡ answers opening ties handling.from handling.seq effects.now signal.now) }
{
    match handling.from {
        Sender::Process(from) => process_answer(handling, from, effects, signal),
        Sender::Poller | Sender::Worker(_) | Sender::Timer => Ok(None),
    }
}

/// What a late signal of a process sends.
pub(crate) fn late_post(port: u32, from: u32, seq: u64, signal: &Signal) -> Option<Post>
    ensures { sent_by result ≡ late_mail port from seq signal.now }
{
    match signal {
        Signal::Control { .. } => Some(reply(port, from, seq, Answer::Badarg)),
        Signal::Call { .. } => Some(reply(port, from, seq, Answer::Badarg)),
        Signal::Close => Some(reply(port, from, seq, Answer::Badarg)),
        Signal::Connect(_) => Some(reply(port, from, seq, Answer::Badarg)),
        Signal::Link => Some(exit(port, from, Reason::noproc())),
        Signal::Monitor(monitor) => Some(Post {
            to: from,
            mail: Mail::Down {
                port,
                monitor: *monitor,
                reason: Reason::noproc(),
            },
        }),
        _ => None,
    }
}

/// What the owner that asked for the close is told, in the row in which the driver is stopped.
pub(crate) fn closed_post(port: u32, stops: bool, closer: Option<u32>) -> Option<Post>
    ensures { sent_by result ≡ closed_mail port stops closer }
{
    if !stops {
        return None;
    }
    let to = closer?;
    Some(Post {
        to,
        mail: Mail::Closed(port),
    })
}
