//! A port with its driver, among three processes, a poller and two workers.
ghost use Rattle.std.specs.Prelude.{◌≡◌};
ghost use Rattle.port_body.specs.Openings.{FitsPlace};
ghost use Rattle.port_words.specs.busy.Known.{InRange};
ghost use Rattle.port_body.specs.recorded_port.Openings.{AreUnused};
ghost use Rattle.run_lanes.specs.Opened.{CanOpen};

use crate::acts::{PortAct, act_all};
use crate::dealing::deal;
use crate::others::OthersBeside;
use crate::text::text_of;
use journal_text::{Config, Mode, PortReport, print_histories};
use port_body::{
    Body, BodyEnd, BodyParts, Driver, PortEnd, PortEnds, PortOutlets, PortParts, PortPlace,
};
use port_driver::Life;
use port_model::{Piece, Reason};
use port_words::busy::QueueLimits;
use run_lanes::PortLanes;
use sample_drivers::{Echo, Valve};
use std::alloc::{AllocError, Global};
use std::process::Abort;
use std::sync::Wait;
use std::test::Fail;

/// The port, which process 0 opens.
const PLACE: PortPlace = PortPlace {
    number: 0,
    owner: 0,
    processes: 3,
    rows: 0,
};

/// The limits of the message queue.
#[derive(Clone, Copy)]
pub(crate) enum QueueChoice {
    Usual,
    /// 4 and 8 bytes.
    Small,
}

/// What a port is opened with.
#[derive(Clone, Copy)]
pub(crate) struct PlayOptions {
    pub(crate) limits: QueueChoice,
    pub(crate) mode: Mode,
    /// So many waits of the poller find the write event of the program alone.
    pub(crate) writes: u32,
}

/// A port of a driver of its own, with these limits.
pub(crate) fn limited(limits: QueueChoice) -> PlayOptions {
    PlayOptions {
        limits,
        mode: Mode::Stream,
        writes: 0,
    }
}

/// A port of a program, with this framing.
pub(crate) fn framed(mode: Mode) -> PlayOptions {
    PlayOptions {
        limits: QueueChoice::Usual,
        mode,
        writes: 0,
    }
}

/// What came of the acts.
#[derive(Drop)]
struct Played {
    acts: String,
    data: String,
    receipts: String,
    rows: String,
    stopped: bool,
}

/// What is wanted of that which came of the acts.
#[derive(Clone, Copy)]
pub(crate) enum Wanted<'a> {
    /// What all acts came to.
    Acts(&'a str),
    /// What the last acts came to.
    LastActs(&'a str),
    /// The data that came to the owner.
    Data(&'a str),
    /// The receipts of the processes.
    Receipts(&'a str),
    /// Receipts that stand among those of the processes.
    SomeReceipts(&'a str),
    /// The rows of the port.
    Rows(&'a str),
    /// The rows of the port, too long to be shown where they aren't those.
    LongRows(&'a str),
    /// The driver was stopped.
    Stopped,
}

/// Acts, and what is wanted of that which comes of them.
pub(crate) struct PortCase {
    pub(crate) acts: &'static [PortAct],
    pub(crate) wanted: &'static [Wanted<'static>],
}

/// Asserts that a text is the one that is wanted.
fn is_text<R: Abort>(rt: &R, text: &str, wanted: &str) {
    assert_eq!(rt; text, wanted);
}

/// Asserts that something is so.
fn is_so<R: Abort>(rt: &R, so: bool, words: &str) {
    assert!(rt; so, "{words}");
}

impl Played {
    /// Asserts that this came of the acts.
    fn shows<R: Abort>(&self, rt: &R, wanted: Wanted<'_>) {
        match wanted {
            Wanted::Acts(text) => is_text(rt, self.acts.as_str(), text),
            Wanted::LastActs(text) => {
                is_so(rt, self.acts.as_str().ends_with(text), "other last acts")
            }
            Wanted::Data(text) => is_text(rt, self.data.as_str(), text),
            Wanted::Receipts(text) => is_text(rt, self.receipts.as_str(), text),
            Wanted::SomeReceipts(text) => {
                is_so(
                    rt,
                    self.receipts.as_str().contains(text),
                    "no such receipts",
                )
            }
            Wanted::Rows(text) => is_text(rt, self.rows.as_str(), text),
            Wanted::LongRows(text) => is_so(rt, self.rows.as_str() == text, "other rows"),
            Wanted::Stopped => is_so(rt, self.stopped, "the driver runs on"),
        }
    }

    /// Asserts that all this came of the acts.
    fn shows_all<R: Abort>(&self, rt: &R, wanted: &[Wanted<'_>]) {
        for each in wanted {
            self.shows(rt, *each);
        }
    }
}

fn queue_limits(limits: QueueChoice) -> QueueLimits
    ensures { InRange result.on result.low result.high }
{
    match limits {
        QueueChoice::Usual => QueueLimits {
            on: true,
            low: 4_096,
            high: 8_192,
        },
        QueueChoice::Small => QueueLimits {
            on: true,
            low: 4,
            high: 8,
        },
    }
}

fn config(alloc: Global, options: PlayOptions) -> Result<Config, Fail> {
    let limits = queue_limits(options.limits);
    let run = Piece::of_slice(alloc, b"program")?;
    let mut config = Config::plain(alloc)?;
    config.run = run;
    config.mode = options.mode;
    config.msgq_on = limits.on;
    config.msgq_low = limits.low;
    config.msgq_high = limits.high;
    Ok(config)
}

/// What a port with this driver is opened with.
fn body_parts<D: Driver>(driver: D, config: Config, lanes: PortLanes) -> BodyParts<D>
    requires { CanOpen (record { processes = 3; workers = 2; rows = 0 }) lanes }
    ensures driver { result.port.driver ≡ driver }
    ensures unused { AreUnused result.port.outlets }
    ensures fits { FitsPlace (record { number = 0; owner = 0; processes = 3; rows = 0 }) result.workers result.port.outlets result.lane }
{
    let PortLanes {
        lane,
        mailboxes,
        seat,
        asks,
        pool,
    } = lanes;
    let outlets = PortOutlets {
        mailboxes,
        seat,
        ends: PortEnds { asks, pool },
    };
    BodyParts {
        port: PortParts {
            driver,
            config,
            outlets,
        },
        lane,
        workers: 2,
    }
}

/// The port of a body that has ended.
fn port_end<D: Driver>(body: Body<D>) -> PortEnd<D> {
    let BodyEnd { port, .. } = body.into_end();
    port
}

/// Whether the driver of a port that has ended was stopped, and what a journal tells of the port under this name.
fn ended<D: Driver>(body: Body<D>, name: Reason) -> (bool, PortReport) {
    let PortEnd {
        driver,
        config,
        journal,
        ..
    } = port_end(body);
    let port = PortReport {
        name,
        driver: driver.name(),
        owner: 0,
        config,
        events: driver.events(),
        journal,
    };
    (driver.life() == Life::Stopped, port)
}

/// A name of these bytes.
pub(crate) fn name(bytes: &[u8]) -> Result<Reason, Fail> {
    match Reason::of_bytes(bytes) {
        Ok(name) => Ok(name),
        Err(_) => Err("no name".into()),
    }
}

/// A journal of this port alone.
fn journal_of(alloc: Global, port: PortReport) -> Result<String, Fail> {
    let mut ports = Vec::new(alloc);
    ports.push(port)?;
    let bytes = print_histories(alloc, &[], ports.as_slice())?;
    text_of(bytes)
}

/// Puts a line of a journal, but for its last one.
fn put_row(rows: &mut String, line: &str) -> Result<(), AllocError> {
    if line == "end" {
        return Ok(());
    }
    rows.push_str(line)?;
    rows.push_str("\n")
}

/// The rows of the one port of a journal: what stands between its line and the line `end`.
fn rows_in(alloc: Global, journal: &str) -> Result<String, AllocError> {
    let mut rows = String::new(alloc);
    for line in journal.lines().skip(3) {
        put_row(&mut rows, line)?;
    }
    Ok(rows)
}

/// The rows of a port as a journal has them.
fn rows_of(alloc: Global, port: PortReport) -> Result<String, Fail> {
    let journal = journal_of(alloc, port)?;
    let rows = rows_in(alloc, journal.as_str())?;
    Ok(rows)
}

/// The open port.
fn opened<D: Driver, R: Wait>(rt: &R, alloc: Global, parts: BodyParts<D>) -> Result<Body<D>, Fail>
    requires fresh { D.stage parts.port.driver ≡ Life.Fresh }
    requires unused { AreUnused parts.port.outlets }
    requires fits { FitsPlace (record { number = 0; owner = 0; processes = 3; rows = 0 }) parts.workers parts.port.outlets parts.lane }
{
    match Body::open(rt, alloc, PLACE, parts) {
        Ok(body) => Ok(body),
        Err(_) => Err("the port wasn't opened".into()),
    }
}

/// Makes the acts on a port, ends it, and tells whether its driver was stopped, and what a journal tells of it.
fn acted<D: Driver, R: Wait>(
    rt: &R,
    alloc: Global,
    mut body: Body<D>,
    others: &mut OthersBeside,
    acts: &[PortAct],
) -> Result<(bool, PortReport), Fail> {
    let name = name(b"p")?;
    act_all(rt, alloc, &mut body, others, acts)?;
    body.end();
    Ok(ended(body, name))
}

/// What came of the acts, where the port has these rows.
fn gathered(others: OthersBeside, rows: String, stopped: bool) -> Played {
    Played {
        acts: others.text,
        data: others.data,
        receipts: others.receipts,
        rows,
        stopped,
    }
}

/// Makes the acts on a port, ends it, and tells what came of them.
fn play_on<D: Driver, R: Wait>(
    rt: &R,
    alloc: Global,
    body: Body<D>,
    mut others: OthersBeside,
    acts: &[PortAct],
) -> Result<Played, Fail> {
    let (stopped, port) = acted(rt, alloc, body, &mut others, acts)?;
    let rows = rows_of(alloc, port)?;
    others.end_all(rt)?;
    Ok(gathered(others, rows, stopped))
}

/// Opens a port with this driver, makes the acts, and tells what came of them.
fn play<D: Driver, R: Wait>(
    rt: &R,
    alloc: Global,
    driver: D,
    options: PlayOptions,
    acts: &[PortAct],
) -> Result<Played, Fail>
    requires { D.stage driver ≡ Life.Fresh }
{
    let config = config(alloc, options)?;
    let limits = queue_limits(options.limits);
    let (lanes, others) = deal(alloc, limits, driver.soft_busy(), options.writes)?;
    let body = opened(rt, alloc, body_parts(driver, config, lanes))?;
    play_on(rt, alloc, body, others, acts)
}

/// Opens a port with this driver, makes the acts, and asserts what comes of them.
pub(crate) fn shows<D: Driver, R: Abort + Wait>(
    rt: &R,
    alloc: Global,
    driver: D,
    options: PlayOptions,
    acts: &[PortAct],
    wanted: &[Wanted<'_>],
) -> Result<(), Fail>
    requires { D.stage driver ≡ Life.Fresh }
{
    let played = play(rt, alloc, driver, options, acts)?;
    played.shows_all(rt, wanted);
    Ok(())
}

/// Asserts what comes of the acts on a port with this driver and the usual limits.
pub(crate) fn usual_shows<D: Driver, R: Abort + Wait>(
    rt: &R,
    alloc: Global,
    driver: D,
    case: &PortCase,
) -> Result<(), Fail>
    requires { D.stage driver ≡ Life.Fresh }
{
    let options = limited(QueueChoice::Usual);
    shows(rt, alloc, driver, options, case.acts, case.wanted)
}

/// Asserts what comes of the acts on a port that echoes.
pub(crate) fn echo_shows<R: Abort + Wait>(
    rt: &R,
    alloc: Global,
    case: &PortCase,
) -> Result<(), Fail> {
    usual_shows(rt, alloc, Echo::new(), case)
}

/// Asserts what comes of the acts on a port with a valve.
pub(crate) fn valve_shows<R: Abort + Wait>(
    rt: &R,
    alloc: Global,
    case: &PortCase,
) -> Result<(), Fail> {
    usual_shows(rt, alloc, Valve::new(), case)
}
