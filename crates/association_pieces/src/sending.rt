//! What an end sends by transfers.

ghost use Rattle.std.specs.Prelude.{◌≡◌, [], ◌∷◌, MatchOption};
ghost use Rattle.association_sets.specs.end_rules.State.{is_running, is_ending, is_suspended};
ghost use Rattle.association_pieces.specs.Sending.{seen_progress};

use crate::transfer_pieces::TransferPieces;
use osi_base::{Octets, Pair};
use stub_tables::Apdu;

/// An APDU that waits for its transfer, with the context that was asked for.
#[derive(Debug, Drop)]
pub struct Queued {
    /// The identifier of the presentation context that was asked for.
    pub context: u32,
    /// The APDU that is to be transferred.
    pub apdu: Apdu,
}

/// Takes the oldest of the items that wait out; there are few.
pub fn take_next(queue: &mut Vec<Queued>) -> Option<Queued>
    ensures { MatchOption result ((queue.old.items ≡ []) × (queue.new.items ≡ []))
        (λ next. queue.old.items ≡ next ∷ queue.new.items) }
{
    if queue.len() == 0 {
        None
    } else {
        Some(queue.remove(0))
    }
}

/// How far the current transfer is.
#[derive(Clone, Copy, Debug, PartialEq, Eq)]
pub enum Progress {
    /// It is in progress, and its end wasn't sent.
    Running,
    /// Its end was sent, and isn't confirmed.
    Ending,
    /// It was stopped, and isn't resumed yet.
    Suspended,
}

impl Progress {
    /// Whether it runs.
    pub fn is_running(self) -> bool
        ensures { result ≡ is_running (seen_progress self) }
    {
        match self {
            Progress::Running => true,
            Progress::Ending | Progress::Suspended => false,
        }
    }

    /// Whether its end was sent.
    pub fn is_ending(self) -> bool
        ensures { result ≡ is_ending (seen_progress self) }
    {
        match self {
            Progress::Ending => true,
            Progress::Running | Progress::Suspended => false,
        }
    }

    /// Whether it is suspended.
    pub fn is_suspended(self) -> bool
        ensures { result ≡ is_suspended (seen_progress self) }
    {
        match self {
            Progress::Suspended => true,
            Progress::Running | Progress::Ending => false,
        }
    }
}

/// How an item was last encoded: its context and its pair, its octets, and the checkpoint and the
/// window of its encoding.
#[derive(Debug, Drop)]
pub struct Encoded {
    /// The identifier of the presentation context.
    pub id: u32,
    /// The pair of abstract and transfer syntax that the identifier stands for.
    pub pair: Pair,
    /// The octets of the transfer: user data in BER with one presentation data value, the APDU in
    /// the transfer syntax of the pair, and its context (X.226 8.4).
    pub octets: Octets,
    /// The checkpoint size it is sent with, in units of 1,024 octets; 0 is without checkpoints.
    pub checkpoint: u32,
    /// The window size it is sent with: how many marks may be unconfirmed.
    pub window: u32,
}

/// The current transfer: its item, its encoding, the pieces sent, the highest confirmed mark.
#[derive(Debug, Drop)]
pub struct Transfer {
    /// The APDU and the context that was asked for.
    pub item: Queued,
    /// How the item was last encoded; `None` before its first encoding.
    pub encoded: Option<Encoded>,
    /// The pieces that were sent, with their marks.
    pub pieces: TransferPieces,
    /// The highest number of a mark that the peer confirmed; 0 where there is none.
    pub confirmed: u32,
    /// How far the transfer is.
    pub progress: Progress,
}

/// What an end sends: the number of its last started activity, the current transfer, the queue.
#[derive(Debug, Drop)]
pub struct Sending {
    /// The number of the activity that this end started last; 0 before the first.
    pub started: u32,
    /// The current transfer, if any.
    pub current: Option<Transfer>,
    /// The items that wait for their transfers, oldest first.
    pub queue: Vec<Queued>,
}
