//! Schedules run over two ends of direct or of reliable mode that see of each other octets alone:
//! the octets are carried in any cutting, and a transcript tells what came of each event.
#![tactic(auto)]

mod end;
mod running;

// Passed on: crates above name these through this one.
pub use association_end as association_end_layer;
pub use association_end::association_line_layer;
pub use running::run_world;
