//! The laws of every run of two ends of direct or reliable mode that see of each other octets
//! alone. Each law is the contract of a function that does nothing.
#![tactic(auto)]

mod laws;

pub use laws::{nothing_whole_waits, one_run, runs_reach_messages, runs_tell_one_outcome};
