//! The listing of a module's operations and errors that `check` writes, a line for each.
#![tactic(auto)]

mod lines;

pub use lines::listing;
