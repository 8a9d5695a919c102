//! Tests of the heads of APDUs and of rejects, by worked rows: read and written in BER, DER and the
//! packed syntax. They stand in a crate of their own, since a crate with tests inside is proved
//! twice.
#![tactic(auto)]

#[cfg(test)]
mod heads;
