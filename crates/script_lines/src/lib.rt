//! The lines of schedules: their fields, numbers, syntaxes and values, and how a line breaks the
//! grammar of its text.
#![tactic(auto)]

mod fault;
mod fields;
mod invoked;
mod line_fault;
mod splitting;
mod syntax;
mod value;

pub use fault::{ScriptFault, ScriptKind};
pub use fields::{
    after_field, at_line_end, field, identifier_field, is_next, is_over, number_field,
};
pub use invoked::{InvokedOperations, result_type};
pub use line_fault::ScriptLineFault;
pub use splitting::Lines;
pub use syntax::{EndsBefore, object_identifier, syntaxes};
pub use value::{used_value, value_of_result};
