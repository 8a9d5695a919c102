//! Values read from the notation of X.680 for values: by their types, and by their form where no
//! type is known.
#![tactic(auto)]

mod form;
mod typed;
mod value_and_rest;
mod word;

pub use form::read_form;
pub use typed::read_typed;
pub use value_and_rest::{Items, ValueAndRest};
pub use word::{after_spaces, len_to};
