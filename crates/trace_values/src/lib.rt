//! What a trace says of presentation data values (X.226 8.4.2): which APDU of remote operations
//! each is, or how many octets it has.
#![tactic(auto)]

mod content;
mod head;
mod values;

pub use values::{put_pdvs, split_first};
