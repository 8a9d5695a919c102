//! One end of bare mode, a mode of this project's own: each APDU of remote operations (X.880 9) is
//! one BER value straight on the line, without an association.
#![tactic(auto)]

mod answering;
mod calling;
mod end;
mod feeding;
mod hearing;
mod intake;
mod invoking;
mod phases;
mod sending;

pub use end::End;
// Passed on: crates above name these through this one.
pub use end_wire as end_wire_layer;
