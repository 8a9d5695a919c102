//! What is wrong with a module whose text follows the grammar, such as a code that stands twice:
//! the first of its faults in the order of the text, and at one place in the order of their kinds.
#![tactic(auto)]

mod assignment_faults;
mod faults;
mod kind;
mod laws;
mod learning;
mod least;
mod locals;
mod names;
mod reach_search;
mod reach_sets;
mod recursion;
mod seen_names;
mod tags;
mod token_tests;
mod type_facts;
mod type_faults;
mod use_lists;

pub use faults::least_fault;
pub use kind::TableKind;
pub use laws::one_least_fault;
pub use least::Found;
pub use names::{name_places, type_at};
pub use token_tests::is_same_name;
