//! What an end of an association does with a message: it passes it over, takes it, or ends the
//! association by an own abort. Checks come in the order purge, session, presentation, then
//! association control or reliable transfer.
#![tactic(auto)]

mod ending;
mod faults;
mod reacting;
mod taking;

// Passed on: crates above name these through this one.
pub use association_connecting::{association_answers_layer, association_sends_layer};
pub use association_place as association_place_layer;
pub use association_place::association_state_layer;
pub use ending::react_to_end;
pub use faults::{fails_on_accepted, has_connection};
pub use reacting::react;
