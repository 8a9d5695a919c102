//! Whether a call of an end of an association is allowed (X.225 7, X.226 6, X.228 7, X.880 8). Each
//! kind of call has rows of conditions; the first that fails is the refusal that the caller is
//! answered.
#![tactic(auto)]

mod altering;
mod in_use;
mod invoking;
mod marks;
mod outcomes;
mod rows;
mod transfers;
mod units;

pub use altering::can_alter;
// Passed on: crates above name these through this one.
pub use association_state as association_state_layer;
pub use association_state::open_invocations_layer;
use dialogue::CallRefusal;
pub use in_use::contexts_in_use;
pub use invoking::{Making, check_invoke};
pub use marks::{can_give, can_mark, can_please, can_restart};
pub use outcomes::{carrier_in, check_answer, check_refuse};
pub use rows::check_phase;
pub use transfers::{can_release, can_resume, can_stop};
pub use units::{
    has_activities, has_marks, has_restarts, has_token, has_typed_data, has_units, has_version_two,
    manages_with, needed_units, selected_with,
};

/// The answer to a call: refused, with the first reason; or allowed, with the identifier of the
/// invocation where the call makes one.
pub type Reply = Result<Option<i64>, CallRefusal>;
