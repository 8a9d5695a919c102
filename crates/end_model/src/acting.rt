//! What an end does is an act of the model, or a taking with what follows from it: each row is the
//! contract of a function with an empty body.

ghost use Rattle.end_model.specs.Acting.{HandedIn};
ghost use Rattle.end_model.specs.Connections.{ConnectionsAct};
ghost use Rattle.end_model.specs.Heard.{DataHeard};
ghost use Rattle.end_model.specs.OwnActs.{ByItselfActs};
ghost use Rattle.end_model.specs.Requests.{AltersAct, CallsAct, CallsUnseen};

/// Invocations, results and errors, as they are handed in: at once, or in reliable mode queued.
pub fn handed_in()
    ensures rows { HandedIn }
{}

/// Data with one APDU, as it is taken in bare and in direct mode, with the reject that it brings.
pub fn data_heard()
    ensures rows { DataHeard }
{}

/// Marks, givings, pleas, restarts, interrupts, discards, resumptions and releases, as they are
/// called.
pub fn calls_act()
    ensures rows { CallsAct }
{}

/// Openings and recoveries, which the model sees once the CN is sent.
pub fn calls_unseen()
    ensures rows { CallsUnseen }
{}

/// Alterations, as they are called.
pub fn alters_act()
    ensures rows { AltersAct }
{}

/// The CN that a CC brings, a refused connection, and own aborts.
pub fn connections_act()
    ensures rows { ConnectionsAct }
{}

/// What an end of reliable mode does by itself: it starts the next item, and encodes it.
pub fn own_acts()
    ensures rows { ByItselfActs }
{}
