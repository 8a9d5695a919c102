//! How an end answers proposed presentation contexts (X.226), and which contexts stand when an
//! opening has been answered.
#![tactic(auto)]

mod answering;
mod opening;

pub use answering::answers_to_additions;
pub use opening::{
    accepted_for, has_context_of, is_faulty_proposal, opening_policy, proposals, set_accepted,
    set_for,
};
