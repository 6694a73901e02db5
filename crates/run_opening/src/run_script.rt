//! What a run is made of.
use run_seats::ProcessSteps;
use script_plan::PortDecl;

/// What a run is made of: its ports as they are declared, the steps of each process, and how many workers and schedulers there are. Ports and processes stand by their numbers, from 0.
#[derive(Drop)]
pub struct RunScript {
    pub ports: Vec<PortDecl>,
    pub process_steps: Vec<ProcessSteps>,
    /// 1 to 8.
    pub workers: u32,
    /// 1 to 16.
    pub schedulers: u32,
    /// For how many rows each port gets room before the run. Where a port has more its list grows.
    pub rows: usize,
}
