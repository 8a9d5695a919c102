//! What an end of an association does with what comes, but for openings, releases and aborts:
//! transport units, data, alterations of contexts, marks and tokens, and activities (X.225 7.11 to
//! 7.36, X.226 6, X.228 7).
#![tactic(auto)]

mod activities;
mod alterations;
mod data;
mod marks;
mod parts;
mod transport;

pub use activities::{end_taken, take_activity};
pub use data::{data_fault, take_data};
pub use marks::{mark_fault, take_mark};
pub use transport::{take_transport, transport_fault};
