//! What a trace says of a TSDU: its session units (X.225 8.3), the units of the presentation
//! protocol that they carry (X.226 8), and their values.
#![tactic(auto)]

mod names;
mod said_text;
mod said_units;
mod units;

pub use names::direction_word;
pub use said_text::{Said, fault_text};
pub use said_units::Viewer;
pub use trace_values::split_first;
