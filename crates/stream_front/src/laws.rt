//! The law of octets that are joined by more, as the contract of a function that does nothing.

ghost use Rattle.stream_front.specs.Laws.{SeenStaysSeen};

/// What a scanner has seen of octets it has seen where more follow.
pub fn seen_stays_seen()
    ensures { SeenStaysSeen }
{}
