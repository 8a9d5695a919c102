//! The laws of two ends of bare and of direct mode with this project's codecs: what the laws of
//! `end_model` presume of spellings and of configurations is proved here of the codecs and of
//! configurations that no end refuses.
#![tactic(auto)]

mod laws;

pub use laws::{
    bare_ends_are_modelled, direct_ends_are_modelled, direct_turn_has_one_holder,
    direct_values_are_as_sent,
};
