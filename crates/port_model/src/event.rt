/// A direction in which an event is ready: there is something to read, or room to write, after `ERL_DRV_READ` and
/// `ERL_DRV_WRITE` of the Erlang/OTP manual of erl_driver.
#[derive(Clone, Copy, Debug, PartialEq, Eq)]
pub enum Dir {
    Read,
    Write,
}
