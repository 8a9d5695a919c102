//! What a unit of the session that came means to an end of direct or reliable mode: its unit of the
//! presentation is read (X.226 8), then values on their contexts, then the APDUs in them (X.227 9,
//! X.228 9, X.882 9). Or it has a fault, which ends the association.
#![tactic(auto)]

mod association;
mod basis;
mod contexts;
mod layer_apdus;
mod names;
mod transfers;
mod unit_meanings;
mod units;
mod user_information;
mod values;

// Passed on: crates above name these through this one.
pub use association_codecs as association_codecs_layer;
pub use association_codecs::apdu_codec_layer;
pub use association_intake as association_intake_layer;
pub use basis::{Halt, ReadingBasis};
pub use transfers::arrived_at;
pub use units::meaning_of_unit;
