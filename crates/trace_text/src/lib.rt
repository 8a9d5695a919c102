//! The trace of a recorded dialogue: what each of its messages says, a line for each.
#![tactic(auto)]

mod direction;
mod laws;
mod trace;

pub use laws::one_trace;
pub use trace::trace_text;
