/// Where a driver stands in its life.
#[derive(Clone, Copy, Debug, PartialEq, Eq)]
pub enum Life {
    Fresh,
    Started,
    Stopped,
}

/// Why a driver did not start: `ERL_DRV_ERROR_GENERAL`, `ERL_DRV_ERROR_ERRNO` and `ERL_DRV_ERROR_BADARG` of driver_entry, a failure of
/// the outside, which its count of faults shows, or want of memory.
#[derive(Clone, Copy, Debug, PartialEq, Eq)]
pub enum StartRefusal {
    General,
    Errno,
    Badarg,
    StartFault,
    NoMemory,
}
