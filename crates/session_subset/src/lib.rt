//! The session machine (X.225 7): which units of the session protocol an end may send and may take,
//! from the connection of an association to its end.
#![tactic(auto)]

mod changes;
mod fault;
mod laws;
mod refusals;
mod session;
mod state;
mod taking;
mod units;

pub use fault::{SessionFault, SessionRefusal};
pub use laws::{
    answers_of_mode, awaited_in_phase, sent_is_writable, turn_or_giving, units_of_mode,
};
pub use session::{Session, Taken};
pub use state::{
    Awaited, Owed, OwnActivity, PeerActivity, Progress, SessionPhase, SessionRole, SessionState,
};
pub use units::{FunctionalUnits, is_acceptable};
