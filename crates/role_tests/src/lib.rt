//! Tests of the two sides of remote operations, by worked rows. They stand in a crate of their own,
//! since a crate with tests inside is proved twice.
#![tactic(auto)]

#[cfg(test)]
mod sample;
#[cfg(test)]
mod taking;
#[cfg(test)]
mod writing;
