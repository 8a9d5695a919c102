//! Reliable transfers (X.228): the octets of one transfer cut into chunks with marks, and joined
//! again at the other end, also after a break.
#![tactic(auto)]

mod fault;
mod incoming;
mod laws;
mod outgoing;

pub use fault::RtseFault;
pub use incoming::{Ended, Incoming};
pub use laws::{arrives_whole, nothing_is_refused};
pub use outgoing::{Outgoing, Step};
