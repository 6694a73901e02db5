//! Programs of the machine, as a driver calls them.
use outside::{Child, Fetched, NoMemory, Offered, PollSet, SpawnFault, Spawner, StatusGot};
use outside_programs::{PipeServer, RealChild, RealPoll, RealSpawner};
use std::alloc::Global;
use std::process::{Processes, SystemProcess};
use std::sync::Wait;
use std::test::Fail;
use std::thread::Threads;
use std::time::{Clock, Instant};

/// The event of what the program gives.
const READ: u32 = 0;

/// The event of what the program takes.
const WRITE: u32 = 1;

/// How often a program that answers is waited for.
const WAITS: u32 = 5_000;

/// The most bytes of one fetch.
const MOST: usize = 65_536;

/// Waits for an event.
fn wait_for<P: PollSet>(alloc: Global, poll: &mut P, event: u32) {
    let _ = poll.wait(alloc, &[event]);
}

/// Offers a program bytes.
fn offer<C: Child>(child: &mut C, bytes: &[u8]) -> Offered {
    child.offer(bytes)
}

/// Fetches what a program gives.
fn fetch<C: Child>(alloc: Global, child: &mut C) -> Fetched {
    child.fetch(alloc, MOST)
}

/// The status of a program where its output has ended, and else what was fetched of it.
fn fetch_status<C: Child>(alloc: Global, child: &mut C) -> Result<StatusGot, Fetched> {
    match child.fetch(alloc, MOST) {
        Fetched::End => Ok(child.status()),
        more => Err(more),
    }
}

/// Gives a program bytes, as it takes them. Answers whether it took all within so many waits.
fn gives<C: Child, P: PollSet>(
    alloc: Global,
    child: &mut C,
    poll: &mut P,
    bytes: &[u8],
    waits: u32,
) -> Result<bool, Fail> {
    let mut left = bytes;
    for _ in 0..waits {
        if left.is_empty() {
            return Ok(true);
        }
        match offer(child, left) {
            Offered::Took(count) => left = left.get(count..).unwrap_or_default(),
            Offered::Failed => return Err("the program takes nothing".into()),
        }
        wait_for(alloc, poll, WRITE);
    }
    Ok(left.is_empty())
}

/// What a program gives until so many bytes came, or it ended.
fn gather<C: Child, P: PollSet>(
    alloc: Global,
    child: &mut C,
    poll: &mut P,
    wanted: usize,
) -> Result<Vec<u8>, Fail> {
    let mut bytes = Vec::new(alloc);
    for _ in 0..WAITS {
        if bytes.len() >= wanted {
            break;
        }
        match fetch(alloc, child) {
            Fetched::Bytes(more) => bytes.extend_from_slice(more.as_slice())?,
            Fetched::Again => wait_for(alloc, poll, READ),
            Fetched::End => break,
            Fetched::Failed | Fetched::NoMemory => return Err("the program gives nothing".into()),
        }
    }
    Ok(bytes)
}

/// Whether a program gives back the bytes that it is given.
fn gives_back<C: Child, P: PollSet>(
    alloc: Global,
    child: &mut C,
    poll: &mut P,
    bytes: &[u8],
) -> Result<bool, Fail> {
    if !gives(alloc, child, poll, bytes, WAITS)? {
        return Ok(false);
    }
    let told = gather(alloc, child, poll, bytes.len())?;
    Ok(told.as_slice() == bytes)
}

/// The status of a program, once its output has ended.
fn status<C: Child, P: PollSet>(
    alloc: Global,
    child: &mut C,
    poll: &mut P,
) -> Result<StatusGot, Fail> {
    for _ in 0..WAITS {
        match fetch_status(alloc, child) {
            Ok(status) => return Ok(status),
            Err(Fetched::Bytes(_) | Fetched::End) => {}
            Err(Fetched::Again) => wait_for(alloc, poll, READ),
            Err(Fetched::Failed | Fetched::NoMemory) => {
                return Err("the program gives nothing".into());
            }
        }
    }
    Err("the program doesn't end".into())
}

/// A poll set of the two events.
fn poll_set<R: Clock + Drop>(alloc: Global, rt: R) -> Result<RealPoll<R>, NoMemory> {
    RealPoll::new(alloc, rt, 2)
}

/// What starts programs whose events are those of the poll set.
fn spawner<R: Clock + Threads + Wait + Copy + Send + Sync + Drop + 'static>(
    alloc: Global,
    rt: R,
    poll: &RealPoll<R>,
) -> Result<RealSpawner<R>, NoMemory> {
    let pipes = PipeServer::new(alloc, rt, poll)?;
    RealSpawner::new(rt, &pipes, READ, WRITE)
}

/// Starts the program that this command text names.
fn start<S: Spawner>(
    alloc: Global,
    spawner: &mut S,
    command: &[u8],
) -> Result<S::Program, SpawnFault> {
    spawner.start(alloc, command)
}

/// A program that was started, its poll set, and what started it.
#[derive(Drop)]
struct StartedProgram<C, P, S> {
    alloc: Global,
    child: C,
    poll: P,
    spawner: S,
}

impl<C: Child, P: PollSet, S> StartedProgram<C, P, S> {
    /// Whether it takes all of these bytes within so many waits.
    fn takes(&mut self, bytes: &[u8], waits: u32) -> Result<bool, Fail> {
        gives(self.alloc, &mut self.child, &mut self.poll, bytes, waits)
    }

    /// Whether it gives back these bytes.
    fn gives_back(&mut self, bytes: &[u8]) -> Result<bool, Fail> {
        gives_back(self.alloc, &mut self.child, &mut self.poll, bytes)
    }

    /// Its status, once its output has ended.
    fn status(&mut self) -> Result<StatusGot, Fail> {
        status(self.alloc, &mut self.child, &mut self.poll)
    }

    fn stop(&mut self) {
        self.child.stop();
    }
}

/// The program that this command text names, started on this machine, with its poll set and what started it.
fn start_program<R>(
    alloc: Global,
    rt: R,
    command: &[u8],
) -> Result<StartedProgram<RealChild<R>, RealPoll<R>, RealSpawner<R>>, Fail>
where
    R: Clock
        + Threads
        + Wait
        + Processes<Started = SystemProcess>
        + Copy
        + Send
        + Sync
        + Drop
        + 'static,
{
    let poll = poll_set(alloc, rt)?;
    let mut spawner = spawner(alloc, rt, &poll)?;
    match spawner.start(alloc, command) {
        Ok(child) => {
            Ok(StartedProgram {
                alloc,
                child,
                poll,
                spawner,
            })
        }
        Err(_) => Err("no program was started".into()),
    }
}

/// Whether a program gives back these bytes, and then those. It is stopped at the end.
fn gives_back_both<C: Child + Drop, P: PollSet + Drop, S: Drop>(
    mut program: StartedProgram<C, P, S>,
    first: &[u8],
    second: &[u8],
) -> Result<bool, Fail> {
    if !program.gives_back(first)? {
        return Ok(false);
    }
    let gives_back = program.gives_back(second)?;
    program.stop();
    Ok(gives_back)
}

#[test]
fn cat_answers_before_its_input_ends(rt: HostRuntime) -> Result<(), Fail> {
    let cat = start_program(rt.alloc(), rt, b"cat")?;
    assert!(rt; gives_back_both(cat, b"hello", b" again")?);
    Ok(())
}

/// The status that a program ends with once it took these bytes, if it took them.
fn status_after<C: Child + Drop, P: PollSet + Drop, S: Drop>(
    mut program: StartedProgram<C, P, S>,
    bytes: &[u8],
) -> Result<Option<StatusGot>, Fail> {
    if !program.takes(bytes, WAITS)? {
        return Ok(None);
    }
    Ok(Some(program.status()?))
}

#[test]
fn a_program_ends_with_its_own_status(rt: HostRuntime) -> Result<(), Fail> {
    let shell = start_program(rt.alloc(), rt, b"sh")?;
    assert!(rt; status_after(shell, b"exit 3\n")? == Some(StatusGot::Ended(3)));
    Ok(())
}

#[test]
fn a_program_that_a_signal_ends_has_status_255(rt: HostRuntime) -> Result<(), Fail> {
    let shell = start_program(rt.alloc(), rt, b"sh")?;
    assert!(rt; status_after(shell, b"kill -9 $$\n")? == Some(StatusGot::Ended(255)));
    Ok(())
}

/// Whether no program is started by this command text.
fn starts_nothing<S: Spawner>(alloc: Global, spawner: &mut S, command: &[u8]) -> bool
where
    S::Program: Drop,
{
    matches!(start(alloc, spawner, command), Err(SpawnFault::Failed))
}

/// Whether no program is started by this command text, nor by that.
fn starts_neither<S: Spawner + Drop>(
    alloc: Global,
    mut spawner: S,
    first: &[u8],
    second: &[u8],
) -> bool
where
    S::Program: Drop,
{
    starts_nothing(alloc, &mut spawner, first) && starts_nothing(alloc, &mut spawner, second)
}

#[test]
fn a_word_that_is_no_program_starts_nothing(rt: HostRuntime) -> Result<(), Fail> {
    let alloc = rt.alloc();
    let poll = poll_set(alloc, rt)?;
    let spawner = spawner(alloc, rt, &poll)?;
    assert!(rt; starts_neither(alloc, spawner, b"no-program-of-this-name -x", b"   "));
    Ok(())
}

/// Whether a program takes this many bytes, before it is stopped.
fn takes_before_stop<C: Child + Drop, P: PollSet + Drop, S: Drop>(
    mut program: StartedProgram<C, P, S>,
    count: usize,
) -> Result<bool, Fail> {
    let bytes = vec![in program.alloc; 7u8; count]?;
    let takes = program.takes(bytes.as_slice(), 500)?;
    program.stop();
    Ok(takes)
}

#[test]
fn a_program_that_never_reads_is_stopped_at_once(rt: HostRuntime) -> Result<(), Fail> {
    let begun = Instant::now(&rt)?;
    let sleeper = start_program(rt.alloc(), rt, b"sleep 30")?;
    assert!(rt; !takes_before_stop(sleeper, 1_048_576)?);
    assert!(rt; begun.elapsed(&rt)?.as_secs() < 20);
    Ok(())
}
