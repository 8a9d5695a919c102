//! Laws of values as texts: what `value_text` prints, `value_reading` reads back.
#![tactic(auto)]

mod laws;

pub use laws::{printed_forms_are_read_back, printed_values_are_read_back};
