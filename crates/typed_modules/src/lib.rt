//! A law on the types of modules: none of them is `Any`, one whole BER value of any type, kept as
//! octets. The notation has no word for it, and a table file no row.
#![tactic(auto)]

mod typed;

pub use typed::module_has_no_any;
