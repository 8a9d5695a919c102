//! The APDUs of reliable transfer (X.228 9), and the one value of which a transfer's octets
//! consist, read from octets and written as octets in BER (X.690).
#![tactic(auto)]

mod codec;
mod laws;
mod table;
mod transfer;
mod words;

pub use codec::{read_rtse, write_rtse};
pub use laws::{rtse_is_spelled, spelled_rtse_is_read, transfers, written_rtse_is_read};
pub use table::RtseTable;
pub use transfer::{TransferTable, read_transfer, write_transfer};
