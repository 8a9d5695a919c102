//! The units of the session protocol (X.225 8), read from octets and written as octets: those of a
//! TSDU, which is what the session hands to the transport at once.
#![tactic(auto)]

mod fault;
mod kind;
mod laws;
mod parameters;
mod places;
mod reading;
mod scan;
mod spelling;
mod values;
mod words;
mod writing;

pub use fault::SFault;
pub use laws::{
    one_reading, units_or_fault, where_a_fault_stands, written_is_read, written_length,
};
pub use places::{UserPlaces, user_places};
pub use reading::read_spdus;
pub use writing::{units_written, write_spdus};
