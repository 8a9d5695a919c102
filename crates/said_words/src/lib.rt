//! A law on what two ends of direct mode, and two ends of reliable mode, say to each other: each
//! message on its way is one that the rules make, with names, numbers and values within their
//! limits.
#![tactic(auto)]

mod laws;

pub use laws::{direct_ends_say_words, reliable_ends_say_words};
