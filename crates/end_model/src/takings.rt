//! What the model may take, the end takes: each group of rows is the contract of a function with
//! an empty body.

ghost use Rattle.end_model.specs.Faultless.{AnswersMayBeTaken, DirectMayBeTaken};
ghost use Rattle.end_model.specs.Faultless.{ReliableMayBeTaken};
ghost use Rattle.end_model.specs.FaultlessOthers.{DataMayBeTaken, OpeningsMayBeTaken};
ghost use Rattle.end_model.specs.FaultlessOthers.{TransfersMayBeTaken};
ghost use Rattle.end_model.specs.Openings.{OpeningsTaken};
ghost use Rattle.end_model.specs.Takings.{AnswersTaken, DirectTaken, DiscardsTaken, EndsTaken};
ghost use Rattle.end_model.specs.Takings.{ReliableTaken, TransferWordsTaken};

/// Marks, givings, pleas, restarts and their answers, alterations, releases and aborts, as they
/// are taken in direct mode.
pub fn direct_taken()
    ensures rows { DirectTaken }
{}

/// Marks, givings, pleas, alterations, starts, interrupts, discards and the end of the
/// association, as they are taken in reliable mode.
pub fn reliable_taken()
    ensures rows { ReliableTaken }
{}

/// Answers to the oldest own alteration, as they are taken.
pub fn answers_taken()
    ensures rows { AnswersTaken }
{}

/// Openings and recoveries: what a responder makes of a CN, and an initiator of an AC.
pub fn openings_taken()
    ensures rows { OpeningsTaken }
{}

/// Parts, confirmations, resumptions and a release, as they are taken in reliable mode.
pub fn transfer_words_taken()
    ensures rows { TransferWordsTaken }
{}

/// The confirmation of an own discard, as it is taken.
pub fn discards_taken()
    ensures rows { DiscardsTaken }
{}

/// The end of the peer's activity, as it is taken, with the APDU that it brings.
pub fn ends_taken()
    ensures rows { EndsTaken }
{}

/// A word without a fault is one that the model may take, in direct mode.
pub fn direct_may_be_taken()
    ensures rows { DirectMayBeTaken }
{}

/// A word without a fault is one that the model may take, in reliable mode.
pub fn reliable_may_be_taken()
    ensures rows { ReliableMayBeTaken }
{}

/// An answer to the oldest own alteration without a fault is one that the model may take.
pub fn answers_may_be_taken()
    ensures rows { AnswersMayBeTaken }
{}

/// A CN, an AC, an RF or the answer to a release without a fault is one that the model may take.
pub fn openings_may_be_taken()
    ensures rows { OpeningsMayBeTaken }
{}

/// Data with one APDU under the pair of the held set, without a fault, is one that the model may
/// take, in direct mode.
pub fn data_may_be_taken()
    ensures rows { DataMayBeTaken }
{}

/// A resumption, the end of the peer's activity, and the answers to an own end, interrupt or
/// discard without a fault are ones that the model may take.
pub fn transfers_may_be_taken()
    ensures rows { TransfersMayBeTaken }
{}
