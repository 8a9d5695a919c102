//! Two laws: where the strings in a value consist of octets (numbers below 256), so does its DER
//! spelling, if it has fewer than 2^24 of them; and the strings of a value that has the form of a
//! row of a table without `Any` do.
#![tactic(auto)]

mod laws;

pub use laws::{der_are_octets, fitting_leaves_are};
