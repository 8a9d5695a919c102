//! The context sets to which a restart (X.225 7.24) or a resumption (X.225 7.30) goes back: those
//! that marks saved, and the one from before an activity. They are a chain of versions linked by
//! index; each has what it adds to the set of its parent and what it takes out. What is restored is
//! this project's own rule.
#![tactic(auto)]

mod chain;
mod differing;
mod node;
mod refusal;
mod saved;

pub use node::VersionNode;
pub use refusal::SaveRefusal;
pub use saved::Saved;
