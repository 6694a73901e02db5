//! Ports that were opened, but whose run isn't seated, are ended.
ghost use Rattle.std.specs.Prelude.{List};
ghost use Rattle.run_opening.specs.driver_hosts.Back.{AllCameBack};
ghost use Rattle.seated_script.specs.Opened.{WereOpened};

use run_opening::{Body, Driver, Hosted, all_drivers_come_back, take_back};
use std::alloc::Global;

/// Ends ports that have made no turn, and puts their drivers back. What the ports leave is given up.
pub(crate) fn end_opened<D: Driver>(
    alloc: Global,
    hosts: &mut Vec<Hosted<D>>,
    places: &[usize],
    bodies: Vec<Body<D>>,
)
    requires { (first : List (Hosted D)) × WereOpened D.kind D.stage D.faults places.now first hosts.old.items bodies.items }
    ensures { (first : List (Hosted D)) → WereOpened D.kind D.stage D.faults places.now first hosts.old.items bodies.items
        → AllCameBack D.kind D.stage D.faults first hosts.new.items }
{
    all_drivers_come_back::<D>();
    let _ = take_back(alloc, hosts, places, bodies);
}
