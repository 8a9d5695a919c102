//! The two sides of remote operations (X.880 8, 9; X.882 9): the invoker, which takes outcomes and
//! rejects, and the performer, which takes invocations, and the APDUs that calls send.
#![tactic(auto)]

mod apdu_problems;
mod apdu_taken;
mod apdus;
mod invoked_with;
mod invoker;
mod laws;
mod opening;
mod performer;
mod values;

pub use apdu_problems::{has_links, is_linked_to};
// Passed on: crates above name these through this one.
pub use apdu_spelling as apdu_spelling_layer;
pub use apdu_taken::{RoseTaken, is_of_invocation, refused_head, reject_with};
pub use apdus::{error_apdu, invoke_apdu, result_apdu};
pub use invoked_with::InvokedWith;
pub use invoker::Invoker;
pub use laws::{always_carries, stays_within};
pub use performer::Performer;
