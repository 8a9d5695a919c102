//! APDUs of remote operations (X.880 9, X.882 9) in BER, DER and the packed syntax. An APDU is read
//! up to its value, which stays unread until its type is known; it is written; and its length is
//! told without writing it.
#![tactic(auto)]

mod fault;
mod heads;
mod laws;
mod lengths;
mod packed_heads;
mod pieces;
mod reading;
mod values;
mod writing;

// The head that `read_apdu` gives.
pub use apdu_spelling::{ApduHead, ApduKind};
pub use fault::HeadFault;
pub use heads::Heads;
pub use laws::written_apdu_is_read;
pub use lengths::{apdu_len, is_too_long, is_too_long_with};
pub use reading::read_apdu;
pub use writing::write_apdu;
