//! What an end of an association answers for a message, and what it tells its user: lists of
//! answers and indications, the policy on contexts that the peer proposes, and the end of an
//! association with its abort. The crates that take messages share it.
#![tactic(auto)]

mod brought;
mod choosing;
mod ending;
mod telling;

// Passed on: crates above name these through this one.
pub use association_calls as association_calls_layer;
pub use association_calls::{association_state_layer, open_invocations_layer};
pub use association_sends as association_sends_layer;
pub use brought::{Brought, Messages, Reaction, one_message};
pub use choosing::alteration_answers;
pub use ending::{end_association, fail_association};
pub use telling::{
    one_indication, push_cuts, push_losses, with_answer, with_indication, with_nothing,
};
