//! What an end of an association does with an APDU of remote operations that came on a context
//! (X.880 9, X.882 9): what it tells its user, which invocations it opens and closes, and which
//! reject it sends. It also has what taking a message and answering a call share on transfers: the
//! parts of one, its suspension, and the set of contexts at its resumption (X.228 7).
#![tactic(auto)]

mod apdus;
mod invocations;
mod outcomes;
mod places;
mod problems;
mod transfers;
mod unread;
mod values;

pub use apdus::hear_apdu;
// Passed on: crates above name these through this one.
pub use association_answers as association_answers_layer;
pub use association_answers::{
    association_calls_layer, association_sends_layer, association_state_layer,
};
pub use problems::is_silent_at;
pub use transfers::{part_in, set_resumed, suspend};
pub use unread::hear_unread;
pub use values::{data_on, queue_apdu, take_value, take_values};
