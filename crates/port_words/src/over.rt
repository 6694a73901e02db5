//! The word that tells when a run is over.
//!
//! Its low 32 bits count the ports and processes that have finished, and the rest counts the jobs that recorded a cause to stop. Each takes part through a
//! seat of its own, which may cross threads. Once the seats are joined into one, its next look tells exactly who finished and who stopped.
//! It isn't for waiting: a job that waits looks again by itself.

mod laws;
mod view;
mod word;

pub use crate::over::laws::{over_rule_at_every_moment, over_rule_kept_by_each_step};
pub use crate::over::view::{OverPlace, OverSize, OverView};
pub use crate::over::word::{OverSeat, over_word};
