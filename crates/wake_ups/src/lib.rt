//! How a thread waits that finds nothing to do, and how it is woken.
//!
//! A thread that looks again and again for something to do has an `Idle`, whose waits grow. Where others know when something comes for it, it waits at a `Waiter`,
//! and who brings something calls `wake`: so it is awake within some microseconds, however long it has waited.
//!
//! A wait promises nothing that a contract could tell, and a wake-up that comes too late or not at all loses nothing: each wait ends by itself. So the correctness
//! of a loop never rests on this crate.
#![tactic(auto)]

mod idle;
#[cfg(test)]
mod tests;
mod waiter;

pub use idle::Idle;
pub use waiter::Waiter;
