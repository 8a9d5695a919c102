//! Two ends of reliable mode as the model of `agreement` sees them: what they reach message by
//! message is a run of the model. So transfers arrive whole, at most once and as they were sent
//! (X.228 7).
#![tactic(auto)]

mod own_messages;
mod reliable_ends;

pub use own_messages::own_messages_act;
pub use reliable_ends::{
    reliable_ends_are_modelled, reliable_transfers_arrive_whole_at_most_once,
    reliable_turn_has_one_holder, reliable_values_are_as_sent,
};
