//! What stands first in octets that come piece by piece: one whole value of any type (X.690 8.1).
//! A scanner keeps where it stands, so that what was seen isn't read again, however the octets are
//! cut.
#![tactic(auto)]

mod first_value;
mod laws;
mod scanner;
mod steps;

pub use first_value::FirstValue;
pub use laws::seen_stays_seen;
pub use scanner::{ScanStage, Scanner};
