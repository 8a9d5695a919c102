//! The check of a module, as the command `check` does it: its listing or its table file, or the
//! line that tells why it is refused.
#![tactic(auto)]

mod checking;
mod command;

pub use checking::{Checked, check_module, refused_text};
pub use command::{Check, check_command, is_flag, is_word};
