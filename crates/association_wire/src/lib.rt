//! The one spelling in which a message of an association is written, as definitions with worked
//! messages: values in units of the presentation, in units of the session, in packets (X.226 8,
//! X.225 8, X.224 13, RFC 1006 6). `association_writing` is the code that follows them.
// Definitions that proofs of worked messages unfold, so that these are computed.
#![tactic(auto, unfolding(tpkt::specs::Written::parts_of, asn1_types::specs::Writing::written, asn1_types::specs::Writing::writes, asn1_types::specs::Writing::set_parts, asn1_types::specs::Writing::risen_parts, asn1_types::specs::Writing::integer_octets, asn1_types::specs::Writing::base_128, asn1_types::specs::Writing::base_256, apdu_spelling::specs::Writing::written_apdu, packed_codec::specs::Writing::packed, packed_codec::specs::Numbers::integer_octets))]

mod cases;

pub use cases::{
    aborts_are_written, alterations_are_written, connection_is_written, marks_are_written,
    release_is_written, values_are_written,
};
