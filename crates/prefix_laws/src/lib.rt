//! Laws of messages that are cut anywhere (RFC 1006 6, X.224 13.7): what came of a message has no
//! effect before its last octet.
#![tactic(auto)]

mod laws;

pub use laws::{beginnings_bring_nothing, only_the_last_packet_hands_up};
