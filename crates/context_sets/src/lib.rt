//! The defined context set of one end, and the alterations that it asks for and answers (X.216,
//! X.226): which may be asked for, what is answered, and the set after each.
#![tactic(auto)]

mod alteration;
mod alteration_answers;
mod asking;
mod contexts;
mod fault;
mod laws;
mod results;
mod rules;
mod sets;
mod settling;
mod syntaxes;

pub use alteration::Alteration;
pub use contexts::Contexts;
pub use fault::{SetFault, SetRefusal};
pub use laws::{agree_again, answers_fit, crossing_agrees, settle_between};
pub use results::accepted_list;
pub use rules::{Rejection, Rules};
pub use sets::put_context;
