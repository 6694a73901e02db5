//! What a driver is: the trait of its callbacks and the context that each is handed, after the Erlang/OTP manuals of driver_entry and
//! erl_driver, for every callback that ports make: commands, operations, ready events, jobs and the ends of processes. What each kind
//! of driver does is said in `driver_model`; the contracts here hold a driver to it for every list of earlier calls.
//!
//! It knows neither queues nor words of state: a driver sees its context alone.
#![tactic(auto)]

mod boxed;
mod context;
mod driver;
mod life;
mod reply;

pub use context::{DriverCtx, MAX_EVENTS, SelectFault};
pub use driver::Driver;
pub use life::{Life, StartRefusal};
pub use port_config::Config;
pub use reply::ReplyTo;
