//! Tests of APDUs of association control and reliable transfer, by worked rows: read and written.
//! They stand in a crate of their own, since a crate with tests inside is proved twice.
#![tactic(auto)]

#[cfg(test)]
mod apdus;
#[cfg(test)]
mod transfers;
