//! Laws of the units of the presentation protocol (X.226 8): a unit that is written is read back as
//! it was, and a unit without fields that a reader skips is a value of the table's types.
#![tactic(auto)]

mod laws;

pub use laws::{
    known_ppdu_is_spelled, known_ppdu_is_value, plain_ppdu_is_spelled, written_ppdu_is_read,
};
