/// How many processes and workers a run has, and for how many rows each of its ports gets room before the run.
#[derive(Clone, Copy, Debug)]
pub struct LaneSize {
    pub processes: u32,
    pub workers: u32,
    pub rows: usize,
}
