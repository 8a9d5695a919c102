//! The invocations that have no outcome yet (X.880 8), those of an end and those of its peer, on
//! any context; and the order in which they are told as cut when an association ends.
#![tactic(auto)]

mod invocations;
mod listing;
mod open_call;
mod order;

pub use invocations::Invocations;
pub use open_call::OpenCall;
pub use order::tell_cuts;
// Passed on: crates above name these through this one.
pub use rose_roles as rose_roles_layer;
