//! Runs a schedule over two new ends of its mode (bare, direct or reliable), and gives the
//! transcript.
#![tactic(auto)]

mod associated;
mod bare;
mod laws;
mod running;

pub use laws::one_transcript;
pub use running::run_schedule;
// Passed on: crates above name these through this one.
pub use schedule_text as schedule_text_layer;
