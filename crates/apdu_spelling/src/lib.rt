//! Which octets spell an APDU of remote operations (X.880 9, X.882 9) in BER, DER and the packed
//! syntax, as definitions with their laws; and the head of an APDU, all of it but its value, as a
//! type.
#![tactic(auto)]

mod head;
mod laws;

pub use head::{ApduHead, ApduKind};
pub use laws::{heads_have_identifiers, one_apdu, one_head, written_apdu_is_spelled};
