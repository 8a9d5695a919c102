//! What one end of an association holds, in pieces: the session, context sets, saved sets, and what
//! it sends and receives, each with its small changes. `association_state` puts them together.
#![tactic(auto)]

mod link;
mod piece;
mod receiving;
mod saved;
mod sending;
mod sets;
mod stack;
mod transfer_pieces;

// Passed on: crates above name these through this one.
pub use association_sets as association_sets_layer;
pub use association_sets::association_ground_layer;
pub use link::{Awaited, Link, Stage};
pub use piece::Piece;
pub use receiving::Receiving;
pub use saved::{SavedSet, SavedSets};
pub use sending::{Encoded, Progress, Queued, Sending, Transfer, take_next};
pub use sets::{Sets, take_oldest};
pub use stack::Stack;
pub use transfer_pieces::TransferPieces;
