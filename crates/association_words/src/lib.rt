//! The messages that two ends of an association exchange, as types: what each says, apart from its
//! octets (X.224 13, X.225 8.3, X.226 8, X.227 9, X.228 9).
#![tactic(auto)]

mod faults;
mod values;
mod words;

pub use faults::Fault;
pub use values::{
    Arrived, Information, TransferItem, UserInformation, Value, ValueContent, Values, syntax_of,
};
pub use words::{
    AbortData, Accepting, ActivityWord, AssociationWord, DataWord, MarkWord, Message,
    TransportUnit, Word,
};
