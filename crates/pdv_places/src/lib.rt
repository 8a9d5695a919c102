//! Where the fields of presentation data values (X.226 8.4.2) stand in the octets of a unit that
//! carries them: asked for only to tell the place of a fault.
#![tactic(auto)]

mod places;
mod spots;

pub use places::{PdvField, PdvPlaces, field_place, transfer_place};
