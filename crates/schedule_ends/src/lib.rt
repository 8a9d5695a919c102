//! Laws on schedules that were read: what the laws of runs presume of two ends and of the calls in
//! their run holds of each such schedule.
#![tactic(auto)]

mod ends;
mod typed;

pub use ends::schedule_has_ends;
pub use typed::{config_is_of_end, events_are_calls};
