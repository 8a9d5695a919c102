//! Laws of the packed syntax over values that fit their types: each such value has a packed
//! spelling, which consists of octets, as many as its size tells. And each item of a list takes two
//! octets at least in DER, which bounds how many items there are.
#![tactic(auto)]

mod laws;

pub use laws::{fitting_is_packed, items_take_octets, packed_are_octets, packed_has_size};
