//! The first fault of octets that spell no value in the packed syntax, defined by the grammar and
//! apart from the reader; the laws that the reader tells exactly this fault, and worked faults.
#![tactic(auto)]

mod examples;
mod laws;

pub use examples::{default_is_written, items_fall, size_is_large};
pub use laws::{first_is_given, given_is_first, one_first, short_exactly, three_cases};
