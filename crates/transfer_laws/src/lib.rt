//! The laws of two ends of reliable mode with this project's codecs: what the laws of
//! `reliable_model` presume of spellings, of configurations and of the model's codec is proved here
//! of the codecs and of configurations that no end refuses.
#![tactic(auto)]

mod laws;

// Passed on: crates above name these through this one.
pub use association_reading as association_reading_layer;
pub use laws::{
    premises_are_met, reliable_ends_are_modelled, reliable_ends_have_one_holder,
    reliable_ends_take_as_sent, reliable_ends_tell_answers,
    reliable_ends_transfer_whole_at_most_once,
};
