//! Worked histories of two ends of reliable mode, step by step.
#![tactic(auto)]

mod cases;

pub use cases::{
    break_suspends, broken_giving_returns_the_turn, discard_cuts, end_is_confirmed_again,
    giving_hands_the_turn, interrupt_suspends, interrupted_goes_on, next_item_waits_for_the_end,
    nothing_starts_without_the_turn, number_of_discarded_is_spent, opening_is_up,
    played_is_reached, resumption_goes_on, transfer_is_whole, window_is_full,
};
