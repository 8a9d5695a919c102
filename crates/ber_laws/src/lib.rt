//! Laws of all spellings in BER and DER (X.690), apart from any reader: each is one whole value,
//! and the unused bits of a bit string may have any values in BER.
#![tactic(auto)]

mod laws;

pub use laws::{spelled_is_value, unused_bits_may_be_any};
