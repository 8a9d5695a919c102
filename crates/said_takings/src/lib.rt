//! A law: what an end takes of the other end stands on a context that its own set has.
#![tactic(auto)]

mod laws;

pub use laws::{direct_ends_take_rightly, reliable_ends_take_rightly};
