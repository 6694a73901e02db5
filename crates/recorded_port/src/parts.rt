ghost use Rattle.std.specs.Prelude.{◌≡◌};

use crate::{Driver, Journal, Mailboxes, PortSeat};
use port_driver::Config;
use served_port::PortEnds;

/// Where a port puts what it sends and what it marks: the mailboxes of all processes, the words that its senders look at, and its ends in the lanes of the
/// poller and of the workers.
#[derive(Drop)]
pub struct PortOutlets {
    pub mailboxes: Mailboxes,
    pub seat: PortSeat,
    pub ends: PortEnds,
}

impl PortOutlets {
    pub(crate) fn new(mailboxes: Mailboxes, seat: PortSeat, ends: PortEnds) -> PortOutlets
        ensures { result ≡ record { mailboxes = mailboxes; seat = seat; ends = ends } }
    {
        PortOutlets {
            mailboxes,
            seat,
            ends,
        }
    }
}

/// What a port is opened with.
#[derive(Drop)]
pub struct PortParts<D: Driver> {
    pub driver: D,
    pub config: Config,
    pub outlets: PortOutlets,
}

impl<D: Driver> PortParts<D> {
    pub(crate) fn new(driver: D, config: Config, outlets: PortOutlets) -> PortParts<D>
        ensures { result ≡ record { driver = driver; config = config; outlets = outlets } }
    {
        PortParts {
            driver,
            config,
            outlets,
        }
    }
}

/// What a port ends with.
#[derive(Drop)]
pub struct PortEnd<D: Driver> {
    pub driver: D,
    pub config: Config,
    pub journal: Journal,
    pub outlets: PortOutlets,
}
