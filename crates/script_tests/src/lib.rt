//! Tests of `script_lines`, `schedule_text` and `transcript_text`, and of the configurations that
//! `end_config` refuses. What is expected of texts stands in the texts themselves: an event prints
//! as it was read, and which line is refused, and why, follows from the grammar of schedules. The
//! octets of the transcripts are those of a worked invocation.
#![tactic(auto)]

#[cfg(test)]
mod configs;
#[cfg(test)]
mod events;
#[cfg(test)]
mod refusals;
#[cfg(test)]
mod setups;
#[cfg(test)]
mod transcripts;
