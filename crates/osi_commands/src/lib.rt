//! The commands `check`, `replay` and `trace` of `osi_tool`: words, files and an output in, a
//! status out.
#![tactic(auto)]

mod answers;
mod checking;
mod commands;
mod laws;
mod module_and_file;
mod process;
mod reading;
mod replaying;
mod run;
mod statuses;
mod tracing;

pub use laws::one_answer;
pub use process::{Arguments, run_process};
pub use run::osi_run;
