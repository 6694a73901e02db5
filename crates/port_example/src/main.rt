//! A port by hand, on one thread: a process sends the port a command and a close, the port is opened with the driver `echo` and makes turns until it is finished, and
//! what it sent back and the rows of its history are printed.
//!
//! A run of the program has many of both: its jobs make the calls of the processes, and its schedulers the turns of the ports.
#![tactic(auto)]

mod opening;
mod printing;

ghost use Rattle.std.specs.Prelude.{◌≡◌, length};
ghost use Rattle.run_lanes.specs.Opened.{CanOpen};

use crate::opening::{begin_process, make_lanes, open_port};
use crate::printing::{print_mail, print_rows};
use anyhow::{Result, bail, ensure};
use port_body::{Body, BodyEnd, Driver, PortEnd, Turn};
use port_driver::Life;
use port_model::{IoVec, Piece, Rows};
use process_end::{Ask, Commanded, How, Proc};
use run_lanes::PortLanes;
use sample_drivers::Echo;
use std::alloc::Global;
use std::sync::Wait;

fn main(rt: HostRuntime) -> Result<()> {
    let alloc = rt.alloc();
    let (process_lanes, port_lanes) = make_lanes(alloc)?;
    let process = begin_process(alloc, process_lanes)?;
    let mut process = send_signals(&rt, alloc, process)?;
    let rows = serve_port(&rt, alloc, Echo::new(), port_lanes)?;
    print_mail(&rt, &mut process)?;
    print_rows(&rt, rows.as_slice())
}

/// Sends the port 0 a command and a close, which lie in its lane until it is opened and takes them. A busy port would suspend the process, and a closed one refuses what is sent.
/// Each call leaves a receipt with the line of a script: 0 where there is none.
fn send_signals<R: Wait>(rt: &R, alloc: Global, process: Proc) -> Result<Proc>
    requires { length process.lanes ≡ 1 }
{
    let data = IoVec::of_piece(alloc, Piece::of_slice(alloc, b"abc")?);
    let Commanded::Accepted(mut process, _) = process.command(rt, 0, 0, data, How::Plain) else {
        bail!("the command wasn't accepted");
    };
    let closing = process.signal(rt, 0, 0, Ask::OwnerClose);
    ensure!(closing.is_ok(), "the close wasn't accepted");
    Ok(process)
}

/// Opens the port 0 with this driver, serves it, and answers the rows of its history.
fn serve_port<D: Driver, R: Wait>(
    rt: &R,
    alloc: Global,
    driver: D,
    lanes: PortLanes,
) -> Result<Rows>
    requires fresh { D.stage driver ≡ Life.Fresh }
    requires unused { CanOpen (record { processes = 1; workers = 1; rows = 0 }) lanes }
{
    let mut body = open_port(rt, alloc, driver, lanes)?;
    serve(rt, &mut body)?;
    Ok(rows_of(body))
}

/// Makes turns of at most 64 steps until the port finds nothing to do, and looks whether nothing is owed any more.
fn serve<D: Driver, R: Wait>(rt: &R, body: &mut Body<D>) -> Result<()> {
    for _ in rt.forever() {
        match body.turn(rt, 64) {
            Turn::More => {}
            Turn::Idle => break,
            Turn::NoMemory => bail!("out of memory"),
        }
    }
    ensure!(body.is_finished(), "the port isn't finished");
    Ok(())
}

/// The rows of the port's history.
fn rows_of<D: Driver>(body: Body<D>) -> Rows {
    let BodyEnd { port, .. } = body.into_end();
    let PortEnd { journal, .. } = port;
    journal.rows
}
