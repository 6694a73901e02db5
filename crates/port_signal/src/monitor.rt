/// A process's monitor of a port, under a number that the process chose.
#[derive(Clone, Copy, Debug, PartialEq, Eq, PartialOrd, Ord)]
pub struct Monitor {
    pub process: u32,
    pub number: u64,
}
