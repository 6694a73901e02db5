use port_driver::Config;

/// What was fixed when a port was opened: its number, its first owner, its options, and the two events of its program, 0 and 0 without one.
#[derive(Drop)]
pub struct Fixed {
    pub number: u32,
    pub owner: u32,
    pub config: Config,
    pub read: u32,
    pub write: u32,
}
