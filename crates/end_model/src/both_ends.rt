//! Two ends and the model that goes with them: each statement is the contract of a function with
//! an empty body.

ghost use Rattle.end_model.specs.DirectEnds.{DirectModelled, DirectOneHolder, DirectTakes};
ghost use Rattle.end_model.specs.Sharing.{DirectAsSent};
ghost use Rattle.end_model.specs.BothEnds.{BareModelled, BareTakes, HasCodec};
ghost use Rattle.end_model.specs.Steps.{ActsKept, TakesKept, PassesKept, BreaksKept, UnseenKept};
ghost use Rattle.end_model.specs.Steps.{UnitsKept};

/// Whatever two ends of bare mode reach, there is a run of the model with their states and with
/// what is on its way.
pub fn bare_ends_are_modelled()
    ensures codec { HasCodec }
    ensures modelled { BareModelled }
    ensures takes { BareTakes }
{}

/// Whatever two ends of direct mode reach, through the transport connection, the opening, all
/// calls, all messages and breaks, there is a run of the model with their states and with what is
/// on its way; and what comes next to an end is taken or passed over, so neither aborts of itself.
pub fn direct_ends_are_modelled()
    ensures modelled { DirectModelled }
    ensures takes { DirectTakes }
{}

/// Taken as sent in direct mode: the value of a message of data that an end takes has the pair that
/// its own set gives the value's identifier, and that is the pair that the shared set gave it when
/// the value was sent.
pub fn direct_values_are_as_sent()
    ensures law { DirectAsSent }
{}

/// One holder in direct mode: at no moment do both ends hold the turn.
pub fn direct_turn_has_one_holder()
    ensures law { DirectOneHolder }
{}

/// Each step of two ends, in every mode, keeps a run of the model: an act, a taking, a passing
/// over, a break, and what the model doesn't see.
pub fn steps_keep_the_run()
    ensures acts { ActsKept }
    ensures takes { TakesKept }
    ensures passes { PassesKept }
    ensures breaks { BreaksKept }
    ensures unseen { UnseenKept }
    ensures units { UnitsKept }
{}
