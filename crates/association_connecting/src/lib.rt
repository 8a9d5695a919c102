//! How an end of an association takes an opening, its answer, a refusal, a release and an abort
//! (X.225 7.1 to 7.9, X.226 6.1, 6.4, X.227 7).
#![tactic(auto)]

mod agreeing;
mod answering;
mod associated;
mod association;
mod connect_faults;
mod joining;
mod taking_accept;
mod taking_connect;

pub use association::{association_fault, contexts_for, take_association};
// Passed on: crates above name these through this one.
pub use association_answers as association_answers_layer;
pub use association_answers::association_sends_layer;
