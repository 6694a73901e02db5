ghost use Rattle.std.specs.Prelude.{◌≡◌, not, is_some};
ghost use Rattle.recorded_port.specs.View.{IsSettled, is_finished, state_of};

use crate::fixed::Fixed;
use crate::parts::{PortEnd, PortOutlets};
use crate::{Driver, Journal, Mailboxes, PortSeat, Row, ServedPort, Suspension};
use port_model::Rows;
use std::marker::Model;

/// A port with its driver, its rows, its mail, its words and the senders that it suspended.
///
/// Each call that takes a runtime may spin while another thread is in a call of the same lane or the same word.
pub struct RecordedPort<D: Driver> {
    pub(crate) fixed: Fixed,
    pub(crate) port: ServedPort<D>,
    pub(crate) mailboxes: Mailboxes,
    pub(crate) seat: PortSeat,
    pub(crate) suspension: Suspension,
    // Oldest first, at most 2^60.
    pub(crate) rows: Vec<Row>,
}

// Its parts go by one call, which is proved once and not in each function that may let one go.
impl<D: Driver> Drop for RecordedPort<D> {
    fn drop(self) {
        let Self {
            fixed: _,
            port: _,
            mailboxes: _,
            seat: _,
            suspension: _,
            rows: _,
        } = self;
    }
}

impl<D: Driver> Model for RecordedPort<D> {
    ghost use Rattle.std.specs.Prelude.{◌-◌, ◌^◌, min, vec_capacity, vec_len};
    ghost use Rattle.recorded_port.specs.View.{RecordedView};

    ghost Value = { RecordedView };

    ghost view = { λ p. record {
      opening = record {
        number = p.fixed.number;
        processes = p.port.state.links.processes;
        kind = p.port.state.service.kind;
        config = p.fixed.config;
        owner = p.fixed.owner;
        read = p.fixed.read;
        write = p.fixed.write;
      };
      rows = p.rows.items;
      room = min (vec_capacity p.rows) (2 ^ 60) - vec_len p.rows;
      port = p.port;
      ends = p.mailboxes;
      seat = p.seat;
      suspended = p.suspension;
    } };
}

impl<D: Driver> RecordedPort<D> {
    /// Whether no row has closed the port.
    pub fn is_open(&self) -> bool
        ensures { result ≡ not (is_some self.now.port.state.reason) }
    {
        self.port.is_open()
    }

    /// Whether the driver was stopped.
    pub fn is_stopped(&self) -> bool
        ensures { result ≡ self.now.port.state.stopped }
    {
        self.port.is_stopped()
    }

    /// Whether nothing is wanting at the end of its history: no mark is due, the driver was stopped, nobody is listed, each event that it used is given back, and
    /// each of its jobs was told done.
    pub fn is_finished(&self) -> bool
        requires { IsSettled self.now }
        ensures { result ≡ is_finished (state_of self.now) }
    {
        self.port.is_finished() && self.suspension.is_empty()
    }

    /// Whether the port is busy by its marks.
    pub fn is_busy(&self) -> bool
        ensures { result ≡ self.now.port.state.busy }
    {
        self.port.is_busy()
    }

    /// The driver, the ends, and the history.
    pub fn into_end(self) -> PortEnd<D>
        ensures kind { D.kind result.driver ≡ self.port.state.service.kind }
        ensures own { D.own result.driver ≡ self.port.state.service.own }
        ensures stage { D.stage result.driver ≡ self.port.state.service.stage }
        ensures program { D.program result.driver ≡ self.port.state.service.program }
        ensures faults { D.faults result.driver ≡ self.port.state.service.faults }
        ensures outlets { result.outlets ≡ record { mailboxes = self.ends; seat = self.seat; ends = record { asks = self.port.events.asks; pool = self.port.jobs.lanes } } }
        ensures journal { result.journal.rows ≡ self.rows }
        ensures config { result.config ≡ self.opening.config }
    {
        let Self {
            fixed,
            port,
            mailboxes,
            seat,
            suspension: _,
            rows,
        } = self;
        let (driver, ends) = port.into_parts();
        PortEnd {
            driver,
            config: fixed.config,
            journal: Journal {
                rows: Rows::of_vec(rows),
            },
            outlets: PortOutlets {
                mailboxes,
                seat,
                ends,
            },
        }
    }
}
