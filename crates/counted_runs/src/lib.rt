//! A law on runs of two ends of an association whose lines are octets: after each event, an end
//! that isn't over has taken or passed over exactly the messages whose last octet was given to it.
#![tactic(auto)]

mod laws;

pub use laws::messages_are_taken_when_whole;
