//! The APDUs of association control (X.227 9), which open, answer, release and abort an
//! association: read from octets and written as octets in BER (X.690), by one fixed table of types.
#![tactic(auto)]

mod codec;
mod laws;
mod reading;
mod table;
mod words;

pub use codec::{read_acse, write_acse};
// The fault that `read_acse` gives.
pub use fixed_tables::PduFault as AcseFault;
pub use laws::{
    acse_fault_is_first, acse_is_spelled, known_are_plain, plain_is_spelled, spelled_acse_is_read,
    written_acse_is_read,
};
pub use table::AcseTable;
