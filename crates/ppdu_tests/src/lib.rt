//! Tests of units of the presentation protocol, by worked rows: read and written. They stand in a
//! crate of their own, since a crate with tests inside is proved twice.
#![tactic(auto)]

#[cfg(test)]
mod units;
