//! The compiler of modules in the notation of remote operations (X.880, in this project's profile):
//! the tables of a module, or its first fault.
#![tactic(auto)]

mod compiling;
mod fault;
mod laws;
mod module_tables;
mod numbering;
mod own_codes;
mod scope;

pub use compiling::compile;
pub use fault::TableFault;
pub use laws::{
    fault_or_none, faultless_have_tables, faultless_rows_are_sound, one_is_faultless,
    refused_are_least,
};
// The kinds of `TableFault`.
pub use module_faults::TableKind;
