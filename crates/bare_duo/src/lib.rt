//! Schedules run over two ends of bare mode that see of each other octets alone; the laws of such
//! runs, and worked ones.
#![tactic(auto)]

mod cases;
mod end;
mod laws;
mod running;

// Passed on: crates above name these through this one.
pub use bare_end as bare_end_layer;
pub use cases::{
    invocations_with_links, last_octets_count, one_answer_is_told, outcomes_of_open_invocations,
};
pub use laws::{any_cutting, every_run_keeps_laws, one_feed, one_run};
pub use running::run_world;
