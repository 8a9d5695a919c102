//! Each law is the contract of a function that does nothing.

ghost use Rattle.transfer_laws.specs.Laws.{ReliableEndsAreModelled, ReliableEndsArriveOnce};
ghost use Rattle.transfer_laws.specs.Laws.{ReliableEndsArriveWhole, ReliableEndsHaveOneHolder};
ghost use Rattle.transfer_laws.specs.Laws.{ReliableEndsKeepItems, ReliableEndsTake};
ghost use Rattle.transfer_laws.specs.Laws.{PremisesAreMet, ReliableEndsTakeAsSent};
ghost use Rattle.transfer_laws.specs.Laws.{ReliableEndsTellAnswers};

/// Whatever two ends of reliable mode reach, through openings, transfers, interrupts, discards,
/// resumptions, the turn, alterations, releases, aborts, breaks and recoveries, there is a run of
/// the model of it, and neither aborts of itself.
pub fn reliable_ends_are_modelled()
    ensures modelled { ReliableEndsAreModelled }
    ensures takes { ReliableEndsTake }
{}

/// One holder in reliable mode: at no moment do both ends hold the turn.
pub fn reliable_ends_have_one_holder()
    ensures law { ReliableEndsHaveOneHolder }
{}

/// Transfers arrive whole, at most once: what the end of a transfer brings is the item that the
/// other end started as the activity of that number, and the numbers of the transfers that are
/// handed up rise.
pub fn reliable_ends_transfer_whole_at_most_once()
    ensures whole { ReliableEndsArriveWhole }
    ensures items { ReliableEndsKeepItems }
    ensures once { ReliableEndsArriveOnce }
{}

/// Taken as sent in reliable mode: what the end of a transfer brings is read under the pair that
/// the shared set gave its context when the other end encoded it.
pub fn reliable_ends_take_as_sent()
    ensures law { ReliableEndsTakeAsSent }
{}

/// Each outcome that an end of reliable mode is told is an APDU that the other end wrote.
pub fn reliable_ends_tell_answers()
    ensures law { ReliableEndsTellAnswers }
{}

/// The premises of these laws are met. That the CP of the initiator isn't too long is left out; no
/// test looks at it yet.
pub fn premises_are_met()
    ensures law { PremisesAreMet }
{}
