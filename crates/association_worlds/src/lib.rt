//! Two ends of an association that see of each other octets alone, step by step: laws by which what
//! is proved of ends that exchange messages holds of these too. Each law is the contract of a
//! function that does nothing.
#![tactic(auto)]

mod laws;

pub use laws::{
    meant_is_heard, nothing_fails, octets_are_messages, said_is_meant,
    whole_messages_wait_for_no_octet,
};
