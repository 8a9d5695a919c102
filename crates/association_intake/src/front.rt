//! What stands first in what came, told without any set of contexts.

use association_words::TransportUnit;
use osi_base::{Layer, SessionWord};

/// What stands first in what came.
#[derive(Debug, Drop)]
pub enum Front {
    /// Less than a message.
    Short,
    /// A transport unit (X.224 13).
    OfTransport(TransportUnit),
    /// A unit of the session (X.225 8.3).
    OfSession {
        /// The unit.
        unit: SessionWord,
        /// Where its user data begin in the TSDU; 0 where it has none.
        start: usize,
    },
    /// Octets that break the grammar of the transport or of the session.
    Faulty {
        /// Whose grammar they break: that of the transport or of the session.
        layer: Layer,
        /// The place of the faulty field: of the transport in the stream of the connection, of the
        /// session in the TSDU.
        place: u64,
    },
}
