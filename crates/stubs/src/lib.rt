//! Stubs of a module's operations: a value that fits the type of an argument, a result or a
//! parameter becomes a typed value, and one that doesn't is given back. So what is handed on to be
//! spelled fits.
#![tactic(auto)]

mod stub;
mod typed;
mod typing;

pub use stub::{Stub, Stubs};
pub use typed::{TypedVal, Unfit};
