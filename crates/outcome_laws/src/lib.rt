//! Laws on the outcomes of invocations between two ends, in every mode (X.880 8, 9): an end is told
//! at most one of each invocation, and the other end wrote it.
#![tactic(auto)]

mod laws;

pub use laws::{one_answer, one_outcome, outcomes_are_answers};
