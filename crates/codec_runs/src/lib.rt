//! The laws of every run of two ends of direct or of reliable mode that see of each other octets
//! alone, with this project's own codecs: nothing is presumed of spellings any more. Each law is
//! the contract of a function that does nothing but cite others.
#![tactic(auto)]

mod direct_laws;
mod direct_worlds;
mod reliable_laws;
mod reliable_worlds;

pub use direct_laws::direct_runs_keep_laws;
pub use direct_worlds::direct_worlds_are_spelled;
pub use reliable_laws::reliable_runs_keep_laws;
pub use reliable_worlds::reliable_worlds_are_spelled;
