//! A law: what two ends of direct mode, or of reliable mode, say can be written as octets, and is
//! read as it was meant where it is taken.
#![tactic(auto)]

mod laws;

pub use laws::{direct_ends_are_said, ends_are_met, reliable_ends_are_said};
