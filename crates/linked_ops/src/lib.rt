//! The open invocations of both ends as a forest: a linked invocation stands under the one that it
//! is linked to (X.880 8.2.6).
#![tactic(auto)]

mod children;
mod forest;
mod key;
mod links;
mod node;
mod numbers;
mod openings;
mod trees;

pub use children::Children;
pub use forest::{Forest, KeyEntries, Keys};
pub use key::{ForestRefusal, Key};
