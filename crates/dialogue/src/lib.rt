//! What the user of an end calls, what the end answers and what it tells, as types; with them
//! configurations of ends, events of a schedule, and transcripts of runs.
#![tactic(auto)]

mod bare_setup;
mod call;
mod config;
mod event;
mod indication;

pub use bare_setup::BareSetup;
pub use call::{Call, CallRefusal};
pub use config::{Config, ConfigRefusal, Mode, Phase, check_bare_config};
pub use event::{Carried, Entries, Entry, Event, Events, Transcript};
pub use indication::{Indication, Indications};
