//! A law: whatever two ends of direct mode, or of reliable mode, say to each other can be written
//! as octets.
#![tactic(auto)]

mod laws;

pub use laws::said_are_carried;
