//! Each law is the contract of a function that does nothing.

ghost use Rattle.end_laws.specs.Laws.{BareEndsAreModelled, BareEndsTake, DirectEndsAreModelled};
ghost use Rattle.end_laws.specs.Laws.{DirectEndsTake, DirectTurnHasOneHolder};
ghost use Rattle.end_laws.specs.Laws.{DirectValuesAreAsSent};

/// Whatever two ends of bare mode reach, there is a run of the model of it, and neither aborts of
/// itself.
pub fn bare_ends_are_modelled()
    ensures modelled { BareEndsAreModelled }
    ensures takes { BareEndsTake }
{}

/// Whatever two ends of direct mode reach, through the transport connection, the opening, all
/// calls, all messages and breaks, there is a run of the model of it, and neither aborts of itself.
pub fn direct_ends_are_modelled()
    ensures modelled { DirectEndsAreModelled }
    ensures takes { DirectEndsTake }
{}

/// Taken as sent in direct mode: the value of a message of data that an end takes has the pair that
/// the shared set gave its identifier when it was sent.
pub fn direct_values_are_as_sent()
    ensures law { DirectValuesAreAsSent }
{}

/// One holder in direct mode: at no moment do both ends hold the turn.
pub fn direct_turn_has_one_holder()
    ensures law { DirectTurnHasOneHolder }
{}
