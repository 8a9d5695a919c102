//! Tests of `rtse`: worked transfers over its public calls. They stand in a crate of their own,
//! since a crate with tests inside is proved twice.
#![tactic(auto)]

#[cfg(test)]
mod transfers;
