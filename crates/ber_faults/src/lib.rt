//! The first fault of octets that spell no value in BER or DER (X.690), defined by the grammar and
//! apart from the reader; the laws that the reader tells exactly this fault, and worked faults.
#![tactic(auto)]

mod examples;
mod laws;

pub use examples::{
    contents_cut_a_field, default_is_written, items_fall, mark_passes_the_limit,
    part_comes_twice_in_another_form, strings_nest_too_deep,
};
pub use laws::{
    first_is_given, given_is_first, one_first, short_exactly, three_cases, too_deep_is_full,
};
