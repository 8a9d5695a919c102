//! Transcripts of runs as texts, whole or as a summary.
#![tactic(auto)]

mod call;
mod counts;
mod indication;
mod transcript;
mod typed;
mod words;

pub use call::{put_answer, put_event};
pub use counts::summary_text;
pub use indication::{put_id, put_problem};
pub use transcript::transcript_text;
