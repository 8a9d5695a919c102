//! The units of the presentation protocol (X.226 8), read from octets and written as octets in BER
//! (X.690), by the kind of session unit that carries them.
#![tactic(auto)]

mod codec;
mod fields;
mod items;
mod laws;
mod place;
mod reading;
mod table;
mod words;

pub use codec::{read_ppdu, write_ppdu};
pub use laws::{ppdu_fault_is_first, ppdu_is_spelled, spelled_ppdu_is_read};
pub use place::{PpduFault, PpduPlace};
pub use table::PpduTable;
