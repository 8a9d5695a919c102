//! Files of recorded dialogues: lines of octets, each with the direction in which they went.
#![tactic(auto)]

mod fault;
mod hexadecimal;
mod laws;
mod reading;

pub use fault::{RecordingFault, RecordingKind};
pub use laws::recording_or_fault;
pub use reading::{Recorded, Recording, read_recording};
