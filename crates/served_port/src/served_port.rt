ghost use Rattle.std.specs.Prelude.{◌≡◌, ◌&&◌, not, is_some};
ghost use Rattle.std.specs.List.{list_all};
ghost use Rattle.port_driver.specs.driver_model.Drivers.{read_event_of, write_event_of};
ghost use Rattle.port_events.specs.port_history.Opening.{Opening};
ghost use Rattle.port_events.specs.port_history.State.{State};
ghost use Rattle.port_events.specs.port_history.Jobs.{is_done};
ghost use Rattle.port_events.specs.port_history.Laws.{is_given_back};
ghost use Rattle.served_port.specs.View.{IsAt};

use crate::{Driver, Links, PortEnds};
use port_events::PortEvents;
use port_jobs::PortJobs;
use port_state::PortState;
use std::marker::Model;

/// A port, its driver, the driver's events and its jobs.
///
/// Each call that puts something to the poller or to a worker may spin while another thread is in a call of the same lane.
pub struct ServedPort<D: Driver> {
    pub(crate) state: PortState<D>,
    pub(crate) events: PortEvents,
    pub(crate) jobs: PortJobs,
}

// Its parts go by one call, which is proved once and not in each function that may let one go.
impl<D: Driver> Drop for ServedPort<D> {
    fn drop(self) {
        let Self {
            state: _,
            events: _,
            jobs: _,
        } = self;
    }
}

impl<D: Driver> Model for ServedPort<D> {
    ghost use Rattle.served_port.specs.View.{ServedView};

    ghost Value = { ServedView };

    ghost view = { λ p. record { state = p.state; events = p.events; jobs = p.jobs } };
}

impl<D: Driver> ServedPort<D> {
    /// The ties of the port.
    pub fn links(&self) -> &Links
        ensures { result.now ≡ self.now.state.links }
    {
        self.state.links()
    }

    /// The read event and the write event of the driver's program, 0 and 0 where it has none.
    pub fn program_events(&self) -> (u32, u32)
        ensures read { result.0 ≡ read_event_of self.now.state.service.own }
        ensures write { result.1 ≡ write_event_of self.now.state.service.own }
    {
        self.state.program_events()
    }

    /// Whether no row has closed the port.
    pub fn is_open(&self) -> bool
        ensures { result ≡ not (is_some self.now.state.reason) }
    {
        self.state.is_open()
    }

    /// Whether the port is busy by its marks.
    pub fn is_busy(&self) -> bool
        ensures { result ≡ self.now.state.busy }
    {
        self.state.is_busy()
    }

    /// Whether the driver was stopped.
    pub fn is_stopped(&self) -> bool
        ensures { result ≡ self.now.state.stopped }
    {
        self.state.is_stopped()
    }

    /// Whether the driver was stopped, each event that it used is given back, and each job that it submitted was told done.
    pub fn is_finished(&self) -> bool
        ensures { (port : Opening) (s : State) → IsAt self.now port s
            → result ≡ (s.stopped && list_all is_given_back s.events && list_all (λ job. is_done job.number s.done) s.jobs) }
    {
        self.state.is_stopped() && self.events.is_given_back() && self.jobs.are_done()
    }

    /// The driver, and where the port put what it asked of others.
    pub fn into_parts(self) -> (D, PortEnds)
        ensures kind { D.kind result.0 ≡ self.state.service.kind }
        ensures own { D.own result.0 ≡ self.state.service.own }
        ensures stage { D.stage result.0 ≡ self.state.service.stage }
        ensures program { D.program result.0 ≡ self.state.service.program }
        ensures faults { D.faults result.0 ≡ self.state.service.faults }
        ensures ends { result.1 ≡ record { asks = self.events.asks; pool = self.jobs.lanes } }
    {
        let Self {
            state,
            events,
            jobs,
        } = self;
        let ends = PortEnds {
            asks: events.into_asks(),
            pool: jobs.into_pool(),
        };
        (state.into_driver(), ends)
    }
}
