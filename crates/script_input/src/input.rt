use port_model::Reason;
use run_opening::RunScript;
use script_plan::{FileName, SaveDecl};

/// A port as its script declares it.
#[derive(Drop)]
pub struct PortName {
    pub name: Reason,
    /// The name of a kind of driver.
    pub driver: Reason,
    /// The first owner, by its place among the processes, from 0.
    pub owner: u32,
}

/// The names of a run's processes and ports, each in the order of declaration.
#[derive(Drop)]
pub struct RunNames {
    pub processes: Vec<Reason>,
    pub ports: Vec<PortName>,
}

/// What a run writes beside its report.
pub struct RunWrites {
    pub saves: Vec<SaveDecl>,
    /// The file to which the journal is written.
    pub journal: Option<FileName>,
}

// Its parts go by one call, which is proved once and not in each function that may let one go.
impl Drop for RunWrites {
    fn drop(self) {
        let Self {
            saves: _,
            journal: _,
        } = self;
    }
}

/// All that a run needs of a script and its files.
#[derive(Drop)]
pub struct RunInput {
    pub script: RunScript,
    pub names: RunNames,
    pub writes: RunWrites,
}
