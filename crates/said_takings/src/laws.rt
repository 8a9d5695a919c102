//! Each law is the contract of a function that does nothing.

ghost use Rattle.said_takings.specs.Laws.{DirectTakesRightly, ReliableTakesRightly};

/// Data that an end of direct mode takes are one APDU on a context that its own set has under the
/// pair of the value, and that is the module's; where it takes a release or its answer, its set has
/// association control where it was opened.
pub fn direct_ends_take_rightly()
    ensures law { DirectTakesRightly }
{}

/// Where an end of reliable mode takes a part of a transfer or a plea, its set has reliable
/// transfer where it was opened; so it is of association control where it takes a release or its
/// answer.
pub fn reliable_ends_take_rightly()
    ensures law { ReliableTakesRightly }
{}
