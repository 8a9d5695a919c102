//! The messages that one end of an association writes, with all their fields (X.225 8.3, X.226 8.2,
//! X.227 9, X.228 9). They are values; `association_writing` makes octets of them.
#![tactic(auto)]

mod aborts;
mod answers;
mod opening;
mod tokens;
mod values;

pub use aborts::{abort_of, user_abort};
pub use answers::{
    Response, accept_message, disconnect_message, finish_message, provider_refusal, refuse_message,
};
// Passed on: crates above name these through this one.
pub use association_words as association_words_layer;
pub use opening::{connect_message, connection_data, connection_request};
// Passed on: crates above name these through this one.
pub use set_rules as set_rules_layer;
pub use tokens::{activity_message, give_message, pair_copied, part_message, please_message};
pub use values::{rtse_context, rtse_information};
