//! Laws: whatever ends of reliable mode transfer (X.228 7.3) can be written by the codecs, in each
//! syntax and on each context of the module.
#![tactic(auto)]

mod laws;

pub use laws::{transferables_are_writable, values_are_transfers};
