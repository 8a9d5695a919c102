//! The rules of one end in all modes, as definitions: what may be called, what may come and what is
//! passed over, what is sent, and what the user is told (X.225 7, X.226 6, X.227 7, X.228 7, X.880
//! 8); with worked histories. The crates of ends are the code that follows them.
#![tactic(auto)]

mod cases;

pub use cases::{
    bare_mode_refuses, deletions_collide, four_additions_are_lost, link_to_a_closed_parent,
    lower_restart_wins, opening_is_up, restart_brings_back_the_set, second_result_is_rejected,
    transfer_arrives, transfer_is_resumed, unasked_answer_aborts,
};
