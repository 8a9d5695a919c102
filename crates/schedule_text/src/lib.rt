//! Schedules: how two ends are set up and what happens to them, as a text that is read.
#![tactic(auto)]

mod alter;
mod call;
mod draft;
mod event;
mod laws;
mod schedule;
mod setting;
mod setup;
mod setup_line;

pub use draft::Draft;
pub use laws::{
    bare_schedules_are_bare, every_text_has_one_reading, schedules_are_run, setups_of_bare_mode,
};
pub use schedule::{Schedule, read_schedule};
pub use setting::{Modes, Setting};
pub use setup::Setup;
