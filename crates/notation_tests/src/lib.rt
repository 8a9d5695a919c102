//! Tests of the notation's parser over whole texts: worked rows, each public call once with ample
//! memory, and the limits. They stand in a crate of their own, since a crate with tests inside is
//! proved twice.
#![tactic(auto)]

#[cfg(test)]
mod tests;
