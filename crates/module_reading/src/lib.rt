//! The tables of a module, from its text or its table file, or why it has none.
#![tactic(auto)]

mod fault;
mod laws;
mod reading;

pub use fault::{ModuleFault, ModuleKind};
pub use laws::{faultless_modules, one_fault, one_tables, tables_or_fault};
pub use reading::read_module;
