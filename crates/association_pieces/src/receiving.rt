//! What an end receives by transfers.

use crate::transfer_pieces::TransferPieces;

/// What an end receives: the record of the peer's last activity.
#[derive(Debug, Drop)]
pub struct Receiving {
    /// The number of the peer's last activity.
    pub last: u32,
    /// The pieces that came in it, with their marks.
    pub pieces: TransferPieces,
    /// Whether the end of that activity was taken already.
    pub was_handed: bool,
    /// Whether that activity is in progress.
    pub active: bool,
}
