//! What octets say of an APDU of remote operations (X.882 9), in every mode, and the messages of
//! bare mode in octets, as definitions with their laws. `rose_roles` and `bare_end` are code that
//! follows them.
#![tactic(auto)]

mod laws;

// Passed on: crates above name these through this one.
pub use apdu_codec as apdu_codec_layer;
pub use laws::{
    beginning_is_short, content_says, one_content, one_message, wire_is_first, written_is_first,
};
