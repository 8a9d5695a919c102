//! Two ends of reliable mode: each statement is the contract of a function with an empty body.

ghost use Rattle.reliable_model.specs.ReliableEnds.{ReliableModelled, ReliableOneHolder, ReliableTakes};
ghost use Rattle.reliable_model.specs.Transfers.{ReliableArriveOnce, ReliableArriveWhole};
ghost use Rattle.reliable_model.specs.Transfers.{ReliableAsSent, ReliableItems};

/// Whatever two ends of reliable mode reach, from the first transport connection on, through the
/// opening, transfers with marks, interrupts, discards, resumptions, the turn, alterations, the
/// release, aborts, breaks at any moment and recoveries, there is a run of the model with their
/// states and with what is on its way; and what comes next to an end is taken or passed over, so
/// neither aborts of itself.
pub fn reliable_ends_are_modelled()
    ensures modelled { ReliableModelled }
    ensures takes { ReliableTakes }
{}

/// One holder in reliable mode: at no moment do both ends hold the turn.
pub fn reliable_turn_has_one_holder()
    ensures law { ReliableOneHolder }
{}

/// Taken as sent in reliable mode: the APDU that the end of a transfer brings is read under the
/// pair that the taker's own set gives its context, and that is the pair that the shared set gave
/// the context when the other end encoded the APDU.
pub fn reliable_values_are_as_sent()
    ensures law { ReliableAsSent }
{}

/// Transfers arrive whole, at most once: what the end of a transfer brings is the item that the
/// other end started as the activity of that number, and the numbers of the transfers that are
/// handed up rise.
pub fn reliable_transfers_arrive_whole_at_most_once()
    ensures whole { ReliableArriveWhole }
    ensures items { ReliableItems }
    ensures once { ReliableArriveOnce }
{}
