//! The octets that came on a connection of direct or reliable mode, cut anywhere, and what stands
//! first in them: a unit of the transport (X.224 13), a unit of the session (X.225 8.3), or a
//! fault.
#![tactic(auto)]

mod front;
mod intake;
mod packets;

// Passed on: crates above name these through this one.
pub use association_reading as association_reading_layer;
pub use front::Front;
pub use intake::Intake;
