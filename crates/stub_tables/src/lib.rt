//! The tables of a module: its types, operations and errors (X.880 8); and the APDUs that carry
//! their values, as types.
#![tactic(auto)]

mod apdu;
mod code_places;
mod lookup;
mod operation;
mod readable;
mod rows;
mod tables;

pub use apdu::{Apdu, Returned};
pub use operation::{Code, ErrorRow, Operation, Use};
pub use rows::{ErrorRows, Operations};
pub use tables::Tables;
