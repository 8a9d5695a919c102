//! Worked runs of two ends of direct and of reliable mode, message by message: what `run_laws`
//! defines of a run is computed of each.
#![tactic(auto)]

mod cases;

pub use cases::{
    alterations_that_cross_are_shared, deletion_waits_for_its_answer, opening_is_taken_as_sent,
    restarts_that_cross_leave_one_holder, transfer_arrives_once, value_has_the_pair_of_its_sending,
    values_are_taken_as_sent,
};
