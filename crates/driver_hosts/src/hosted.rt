use port_driver::Driver;

/// A driver that is handed to a run, and the port that it served, by its place in the order of declaration, from 0. A run hands each one back at its place;
/// while its port is open, the driver itself stands in the port's body.
#[derive(Drop)]
pub struct Hosted<D = Box<dyn Driver + Send>> {
    pub port: Option<u32>,
    pub driver: Option<D>,
}
