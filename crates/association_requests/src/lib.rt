//! What a call of an end of an association changes and sends once it is allowed (X.225 7, X.226 6,
//! X.228 7); what an end of reliable mode sends by itself (X.228 7.3); and what changes when a
//! request has been sent, and when the connection breaks.
#![tactic(auto)]

mod accepted_call;
mod broken;
mod calls;
mod messages_due;
mod operations;
mod own_messages;
mod sent;

pub use accepted_call::AcceptedCall;
pub use broken::connection_broke;
pub use calls::make_call;
pub use own_messages::{OwnAct, next_own};
pub use sent::after_sent;
