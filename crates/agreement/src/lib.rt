//! A model of two ends that exchange messages, in all modes and without octets: the laws that hold
//! of each of its runs, such as that an invocation has at most one outcome (X.880 8), and worked
//! runs. The crates `end_model` and `reliable_model` prove that what ends do are steps of this
//! model.
#![tactic(auto)]

mod cases;
mod laws;

pub use cases::{
    alterations_answered_in_order, alterations_collide, completed_activity_resumed,
    deletion_rejected_for_use, discard_forgets, giving_lost_in_a_break,
    giving_taken_before_a_break, initiator_wins_a_tie, interrupt_passes_over_confirmations,
    lower_restart_wins, outcome_of_its_operation, plain_codec_is_faithful, recovery_that_breaks,
    refused_transport_leaves_calls, rejects_tell_their_problem, restart_brings_back_a_pair,
    restart_drops_an_addition, restart_drops_four_additions, resumption_from_a_mark,
    resumption_from_nothing, turn_at_first, unknown_syntax_declined, unwritable_value_refused,
};
pub use laws::{
    accepted_names_open, alterations_are_few, answered_once, contexts_are_known, contexts_stay,
    initiator_leads, invoked_once, items_of_activities, no_abort_of_itself, one_holder,
    one_invocation, one_operation, one_outcome, taken_as_sent, the_others_own,
    transfers_arrive_once, transfers_arrive_whole,
};
