//! Which configurations an end refuses, in any mode, and the unit CP (X.226 8.2.1) with which an
//! initiator opens or recovers an association, as octets.
#![tactic(auto)]

mod checking;
mod connecting;
mod laws;

pub use checking::check_config;
pub use connecting::connect_octets;
pub use laws::{connect_is_of_rules, proposed_contexts_are_right};
