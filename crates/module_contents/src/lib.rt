//! What the octets of a value of a module's abstract syntax are: the APDU of remote operations that
//! they spell (X.882 9), or, where they spell none, they themselves.
#![tactic(auto)]

mod contents;
mod module_values;

pub use contents::content_at;
