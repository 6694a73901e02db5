ghost use Rattle.std.specs.Prelude.{◌≡◌, ◌<◌, is_some, not};

use crate::{Driver, Reason};
use port_mail::Links;
use port_service::Service;
use std::marker::Model;

/// The state of one port.
#[derive(Drop)]
pub struct PortState<D: Driver> {
    pub(crate) number: u32,
    pub(crate) links: Links,
    pub(crate) service: Service<D>,
    pub(crate) reason: Option<Reason>,
    pub(crate) closer: Option<u32>,
    pub(crate) stopped: bool,
    pub(crate) busy: bool,
    pub(crate) change: Option<bool>,
    pub(crate) closes: bool,
}

impl<D: Driver> Model for PortState<D> {
    ghost use Rattle.port_state.specs.View.{StateView};

    ghost Value = { StateView };

    ghost view = { λ c. record {
      number = c.number;
      links = c.links;
      service = c.service;
      reason = c.reason;
      closer = c.closer;
      stopped = c.stopped;
      busy = c.busy;
      change = c.change;
      closes = c.closes;
    } };
}

impl<D: Driver> PortState<D> {
    /// The ties of the port.
    pub fn links(&self) -> &Links
        ensures { result.now ≡ self.now.links }
    {
        &self.links
    }

    /// Whether no row has closed the port.
    pub fn is_open(&self) -> bool
        ensures { result ≡ not (is_some self.now.reason) }
    {
        self.reason.is_none()
    }

    pub fn is_stopped(&self) -> bool
        ensures { result ≡ self.now.stopped }
    {
        self.stopped
    }

    /// Whether the port is busy by its marks.
    pub fn is_busy(&self) -> bool
        ensures { result ≡ self.now.busy }
    {
        self.busy
    }
}
