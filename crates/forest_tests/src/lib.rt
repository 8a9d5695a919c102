//! Tests of `linked_ops`, by steps that are worked out by hand. They stand in a crate of their own,
//! since a crate with tests inside is proved twice.
#![tactic(auto)]

#[cfg(test)]
mod trees;
