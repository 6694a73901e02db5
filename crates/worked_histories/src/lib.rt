//! Worked histories: what the definitions of `port_history` say of them, and which law their broken neighbours break first, and where.
//! Rows are numbered from 0; a law that the end breaks is told at the number of rows. Each function has an empty body: its contract is
//! computed.
#![tactic(auto)]

mod commands;
mod counts;
mod jobs;
mod owners;
mod programs;
mod suspended;

pub use commands::{
    a_late_control_is_answered_badarg, a_store_is_flushed_as_it_closes,
    commands_and_a_close_are_lawful,
};
pub use counts::{commands_are_counted_where_they_call_the_driver, data_is_saved_port_by_port};
pub use jobs::results_of_a_key_come_in_order;
pub use owners::{
    a_connected_port_outlives_its_opener, a_killed_port_tells_killed,
    monitors_are_told_of_the_close, owner_forms_of_others_are_bad_signals,
};
pub use programs::{
    a_close_waits_for_the_queue, a_failed_fetch_ends_the_port,
    an_event_is_handled_where_it_is_armed, what_a_program_gives_is_unframed,
};
pub use suspended::{
    a_suspended_sender_is_resumed, forced_commands_pass_a_busy_port, resumes_come_as_they_may,
};
