use crate::checks::none_is_wrong;
use port_links::{Links, Mail, Post, Reason, Sender, Signal};
use port_signal::reason;
use std::alloc::Global;

/// A signal that concerns the ties of a port.
#[derive(Clone, Copy)]
enum TieSignal {
    Connect(u32),
    OwnerConnect(u32),
    Link,
    Monitor(u64),
    Demonitor(u64),
    /// An exit signal with the reason of this name.
    Exit(&'static str),
    /// The end of the process for the reason of this name.
    Gone(&'static str),
    Close,
    OwnerClose,
}

/// What a post tells: the process that it is for, the number of the monitor that it tells, where it is no exit signal, and
/// whether it has the wanted reason.
type ShownPost = (u32, Option<u64>, bool);

/// What is seen of the ties of a port.
#[derive(Clone, Copy)]
enum TieSight {
    Owner(u32),
    PollerIsNoOwner,
    IsLinked(u32),
    IsEnded(u32, bool),
    MayOwn(u32, bool),
    /// Whether this signal of a process closes the port.
    Closes(u32, TieSignal, bool),
    IsSend,
}

/// What is done with the ties of a port, or seen of them.
#[derive(Clone, Copy)]
enum TieStep {
    /// The port handles this signal of a process that hasn't ended.
    Notes(u32, TieSignal),
    /// The closed port finds this signal of a process that hasn't ended.
    NotesLate(u32, TieSignal),
    /// The port ends for the reason of the first name, and sends these posts, as they tell the second.
    Ends(&'static str, &'static str, &'static [ShownPost]),
    See(TieSight),
}

/// The signal, if its reason has a name.
fn signal_of(tie: TieSignal) -> Option<Signal> {
    match tie {
        TieSignal::Connect(process) => Some(Signal::Connect(process)),
        TieSignal::OwnerConnect(process) => Some(Signal::OwnerConnect(process)),
        TieSignal::Link => Some(Signal::Link),
        TieSignal::Monitor(number) => Some(Signal::Monitor(number)),
        TieSignal::Demonitor(number) => Some(Signal::Demonitor(number)),
        TieSignal::Exit(name) => Some(Signal::Exit(reason(name).ok()?)),
        TieSignal::Gone(name) => Some(Signal::Gone(reason(name).ok()?)),
        TieSignal::Close => Some(Signal::Close),
        TieSignal::OwnerClose => Some(Signal::OwnerClose),
    }
}

/// Takes in the signal of a process that hasn't ended.
fn note(links: &mut Links, from: u32, signal: &Signal) -> bool {
    links.may_own(from) && links.note_signal(Sender::Process(from), signal).is_ok()
}

/// Takes in the signal of a process that hasn't ended, when the port is closed.
fn note_late(links: &mut Links, from: u32, signal: &Signal) -> bool {
    if !links.may_own(from) {
        return false;
    }
    links.note_late(Sender::Process(from), signal);
    true
}

/// The same of what is sent.
fn notes(links: &mut Links, from: u32, tie: TieSignal) -> bool {
    match &signal_of(tie) {
        Some(signal) => note(links, from, signal),
        None => false,
    }
}

/// The same of what is sent, when the port is closed.
fn notes_late(links: &mut Links, from: u32, tie: TieSignal) -> bool {
    match &signal_of(tie) {
        Some(signal) => note_late(links, from, signal),
        None => false,
    }
}

/// The ties of a port that process 0 of four opened, with process 1 as its owner.
fn connected(alloc: Global) -> Option<Links> {
    let mut links = Links::new(alloc, 0, 4).ok()?;
    let is_connected = note(&mut links, 0, &Signal::Connect(1));
    is_connected.then_some(links)
}

fn told_of(post: &Post, wanted: &Reason) -> ShownPost {
    match &post.mail {
        Mail::Exit { reason, .. } => (post.to, None, reason.is(wanted)),
        Mail::Down {
            monitor,
            reason,
            ..
        } => (post.to, Some(*monitor), reason.is(wanted)),
        _ => (post.to, None, false),
    }
}

/// Whether a post tells of a reason what is wanted.
fn tells(post: &Post, told: &Reason, wanted: Option<&ShownPost>) -> bool {
    match wanted {
        Some(shown) => told_of(post, told) == *shown,
        None => false,
    }
}

/// Whether the posts tell this of a reason.
fn tell(posts: &[Post], told: &Reason, wanted: &[ShownPost]) -> bool {
    for (at, post) in posts.iter().enumerate() {
        if !tells(post, told, wanted.get(at)) {
            return false;
        }
    }
    posts.len() == wanted.len()
}

/// Whether the end of port 5 for a reason sends these posts, as they tell another.
fn ends(links: &mut Links, why: &Reason, told: &Reason, wanted: &[ShownPost]) -> bool {
    match &links.end(5, why) {
        Ok(posts) => tell(posts.as_slice(), told, wanted),
        Err(_) => false,
    }
}

/// The same for the reasons of these names.
fn ends_for(links: &mut Links, why: &str, told: &str, wanted: &[ShownPost]) -> bool {
    match (&reason(why), &reason(told)) {
        (Ok(why), Ok(told)) => ends(links, why, told, wanted),
        _ => false,
    }
}

/// Whether what a process sends closes the port.
fn closes(links: &Links, from: u32, tie: TieSignal) -> Option<bool> {
    match &signal_of(tie) {
        Some(signal) => {
            let reason = links.reason_to_close(Sender::Process(from), signal);
            Some(reason.is_some())
        }
        None => None,
    }
}

fn is_send<T: Send>(_value: &T) -> bool {
    true
}

fn shows(links: &Links, sight: TieSight) -> bool {
    match sight {
        TieSight::Owner(owner) => {
            links.owner() == owner && links.is_owner(Sender::Process(owner))
        }
        TieSight::PollerIsNoOwner => !links.is_owner(Sender::Poller),
        TieSight::IsLinked(process) => links.is_linked(process),
        TieSight::IsEnded(process, wanted) => links.is_ended(process) == wanted,
        TieSight::MayOwn(process, wanted) => links.may_own(process) == wanted,
        TieSight::Closes(from, tie, wanted) => closes(links, from, tie) == Some(wanted),
        TieSight::IsSend => is_send(links),
    }
}

/// Whether a step goes so.
fn goes(links: &mut Links, step: TieStep) -> bool {
    match step {
        TieStep::Notes(from, tie) => notes(links, from, tie),
        TieStep::NotesLate(from, tie) => notes_late(links, from, tie),
        TieStep::Ends(why, told, wanted) => ends_for(links, why, told, wanted),
        TieStep::See(sight) => shows(links, sight),
    }
}

/// The number of the first step of a connected port that goes otherwise, if one does, or of the step behind the last where memory is
/// wanting.
fn first_wrong(alloc: Global, steps: &[TieStep]) -> Option<usize> {
    let Some(mut links) = connected(alloc) else {
        return Some(steps.len());
    };
    for (at, step) in steps.iter().enumerate() {
        if !goes(&mut links, *step) {
            return Some(at);
        }
    }
    None
}

const CONNECTED: [TieStep; 12] = [
    TieStep::See(TieSight::IsSend),
    TieStep::See(TieSight::Owner(1)),
    TieStep::Notes(0, TieSignal::OwnerConnect(2)),
    TieStep::Notes(0, TieSignal::Connect(4)),
    TieStep::See(TieSight::Owner(1)),
    TieStep::See(TieSight::PollerIsNoOwner),
    TieStep::Notes(1, TieSignal::OwnerConnect(2)),
    TieStep::See(TieSight::Owner(2)),
    TieStep::See(TieSight::IsLinked(0)),
    TieStep::See(TieSight::IsLinked(1)),
    TieStep::See(TieSight::IsLinked(2)),
    TieStep::See(TieSight::MayOwn(4, false)),
];

#[test]
fn only_the_owner_connects_by_its_form_and_only_to_who_is_there(rt: HostRuntime) {
    none_is_wrong(&rt, first_wrong(rt.alloc(), &CONNECTED));
}

const ENDED: [TieStep; 8] = [
    TieStep::Notes(3, TieSignal::Monitor(1)),
    TieStep::Notes(2, TieSignal::Monitor(1)),
    TieStep::Notes(2, TieSignal::Monitor(0)),
    TieStep::Notes(2, TieSignal::Demonitor(1)),
    TieStep::Notes(2, TieSignal::Monitor(7)),
    TieStep::Ends(
        "kill",
        "killed",
        &[
            (0, None, true),
            (1, None, true),
            (2, Some(0), true),
            (2, Some(7), true),
            (3, Some(1), true),
        ],
    ),
    TieStep::Ends("kill", "killed", &[]),
    TieStep::See(TieSight::Owner(1)),
];

#[test]
fn an_end_tells_links_and_then_the_monitors_that_are_left(rt: HostRuntime) {
    none_is_wrong(&rt, first_wrong(rt.alloc(), &ENDED));
}

const UNTIED: [TieStep; 10] = [
    TieStep::Notes(3, TieSignal::Link),
    TieStep::Notes(3, TieSignal::Monitor(0)),
    TieStep::Notes(2, TieSignal::Monitor(0)),
    TieStep::Notes(3, TieSignal::Gone("normal")),
    TieStep::NotesLate(0, TieSignal::Gone("crash")),
    TieStep::See(TieSight::IsEnded(3, true)),
    TieStep::See(TieSight::IsEnded(0, true)),
    TieStep::See(TieSight::IsEnded(4, false)),
    TieStep::See(TieSight::MayOwn(3, false)),
    TieStep::Ends("normal", "normal", &[(1, None, true), (2, Some(0), true)]),
];

#[test]
fn an_ended_process_has_no_tie(rt: HostRuntime) {
    none_is_wrong(&rt, first_wrong(rt.alloc(), &UNTIED));
}

const CLOSED: [TieStep; 9] = [
    TieStep::See(TieSight::Closes(1, TieSignal::Exit("normal"), true)),
    TieStep::See(TieSight::Closes(0, TieSignal::Exit("normal"), false)),
    TieStep::See(TieSight::Closes(3, TieSignal::Exit("crash"), true)),
    TieStep::See(TieSight::Closes(1, TieSignal::Gone("normal"), true)),
    TieStep::See(TieSight::Closes(0, TieSignal::Gone("normal"), false)),
    TieStep::See(TieSight::Closes(0, TieSignal::Gone("crash"), true)),
    TieStep::See(TieSight::Closes(3, TieSignal::Gone("crash"), false)),
    TieStep::See(TieSight::Closes(3, TieSignal::Close, true)),
    TieStep::See(TieSight::Closes(0, TieSignal::OwnerClose, false)),
];

#[test]
fn failures_and_the_owner_close_the_port(rt: HostRuntime) {
    none_is_wrong(&rt, first_wrong(rt.alloc(), &CLOSED));
}
