//! Messages of an association written as octets: values in units of the presentation (X.226 8),
//! these in units of the session (X.225 8), and these in packets (X.224 13, RFC 1006 6).
#![tactic(auto)]

mod message;
mod presentation_units;
mod session;
mod transport;
mod values;

pub use message::{write_message, write_tsdu_of};
pub use values::{write_content, write_item, write_value};
