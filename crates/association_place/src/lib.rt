//! Whether a unit of the session may come at this point of an association, and whether it is passed
//! over because an own request isn't answered yet (X.225 7).
#![tactic(auto)]

mod activities;
mod association;
mod data;
mod marks;
mod purging;
mod units;
mod words;

// Passed on: crates above name these through this one.
pub use association_calls::association_state_layer;
pub use purging::{is_purged, is_transport_purged, is_unit_purged};
pub use units::is_unit_in_place;
pub use words::is_in_place;
