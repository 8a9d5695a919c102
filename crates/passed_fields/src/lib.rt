//! Reads the fields of a constructed value (X.690) one after the other: those that are known are
//! kept; others, which a standard lets a reader skip, are checked where they stand and left out.
#![tactic(auto)]

mod field;
mod reading;

pub use field::{Field, Fields, Holds, Passed};
pub use reading::{fields, some_values};
