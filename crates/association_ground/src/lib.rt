//! What the rules of an end ask first, in every mode: which mode it is and which units of the
//! session it proposes, which names are those of syntaxes and of the application context, and in
//! which phase an association is.
#![tactic(auto)]

mod modes;
mod names;
mod phases;

pub use modes::{is_bare, is_direct, is_reliable, proposed_units};
pub use names::{application_context, is_acse, is_among, is_ber, is_rtse, same_name};
pub use phases::{
    is_broken, is_dead, is_idle, is_initiators, is_memory, is_of_bare_mode, is_opening,
    is_phase_for, is_recovering, is_up, is_waiting, passes_over,
};
