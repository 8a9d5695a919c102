//! One end as the model of `agreement` sees it: each request that an end sends, and each message
//! that it takes, is a step of the model. So the model's laws hold of two ends of bare and of
//! direct mode.
#![tactic(auto)]

mod acting;
mod both_ends;
mod rows;
mod takings;

pub use acting::{
    alters_act, calls_act, calls_unseen, connections_act, data_heard, handed_in, own_acts,
};
pub use both_ends::{
    bare_ends_are_modelled, direct_ends_are_modelled, direct_turn_has_one_holder,
    direct_values_are_as_sent, steps_keep_the_run,
};
pub use rows::{
    activities_sent, activities_taken, alterations_sent, answered, association_taken, breaks,
    connections, givings_taken, marks_sent, marks_taken, purged, purged_others, restarts_answered,
    restarts_taken, resumptions, sent, transfers_sent, transfers_taken,
};
pub use takings::{
    answers_may_be_taken, answers_taken, data_may_be_taken, direct_may_be_taken, direct_taken,
    discards_taken, ends_taken, openings_may_be_taken, openings_taken, reliable_may_be_taken,
    reliable_taken, transfer_words_taken, transfers_may_be_taken,
};
