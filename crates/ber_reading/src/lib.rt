//! Values of the types of `asn1_types`, read from octets in BER and DER (X.690).
#![tactic(auto)]

mod contents;
mod parts;
mod reading;
mod short_parts;
mod whole_values;

// The fault that every reader here gives.
pub use ber_spelling::ReadFault;
pub use contents::any_value;
pub use reading::value;
pub use whole_values::{MOST_VALUE_OCTETS, Read, ber_read, ber_read_within, der_read};
