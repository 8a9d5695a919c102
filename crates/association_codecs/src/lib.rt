//! The fixed tables of types by which the octets of an association are written and read (X.226 8,
//! X.227 9, X.228 9, X.882 9), made once for an end.
#![tactic(auto)]

mod codecs;

// Passed on: crates above name these through this one.
pub use apdu_codec as apdu_codec_layer;
pub use codecs::Codecs;
