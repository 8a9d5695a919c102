//! All that one end of an association holds but its octets (`Body`), and what its rules stand on:
//! the configuration and the tables (`Basis`).
#![tactic(auto)]

mod basis;
mod body;

// Passed on: crates above name these through this one.
pub use association_pieces::{
    Awaited, Encoded, Link, Piece, Progress, Queued, Receiving, SavedSet, SavedSets, Sending, Sets,
    Stack, Stage, Transfer, TransferPieces, association_ground_layer, association_sets_layer,
    take_next, take_oldest,
};
pub use association_reading::apdu_codec_layer;
pub use basis::Basis;
pub use body::Body;
// Passed on: crates above name these through this one.
pub use open_invocations as open_invocations_layer;
pub use open_invocations::rose_roles_layer;
