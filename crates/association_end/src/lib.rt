//! One end of an association in direct or reliable mode: its calls, and the octets that it takes
//! and gives out.
#![tactic(auto)]

mod calling;
mod dt_sizes;
mod end;
mod feeding;
mod own_acts;
mod reacting;
mod reading;
mod sending;
mod told_and_sent;

// Passed on: crates above name these through this one.
pub use association_line as association_line_layer;
pub use end::End;
