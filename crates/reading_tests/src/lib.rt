//! Tests of `value_reading`, by rows of texts that follow from the notation of values (X.680). They
//! stand in a crate of their own, since a crate with tests inside is proved twice.
#![tactic(auto)]

#[cfg(test)]
mod values;
