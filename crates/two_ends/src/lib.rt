//! Runs events over two ends of any mode that see of each other octets alone: calls, carrying of
//! octets and breaks.
#![tactic(auto)]

mod giving;
mod run_end;
mod running;

pub use run_end::RunEnd;
pub use running::run_events;
