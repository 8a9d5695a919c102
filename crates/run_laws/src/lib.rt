//! What every run of two ends keeps, as definitions in `specs/`: on its transcript, and on the
//! messages that were sent and taken. The crates of runs prove it; there is no code here.
#![tactic(auto)]
