//! Each row is the contract of a function with an empty body.

ghost use Rattle.end_model.specs.Rows.{AssociationTaken, MarksSent, MarksTaken, ActivitiesSent};
ghost use Rattle.end_model.specs.Rows.{ActivitiesTaken, TransfersSent, TransfersTaken};
ghost use Rattle.end_model.specs.Rows.{AlterationsSent, Purged, PurgedOthers, GivingsTaken};
ghost use Rattle.end_model.specs.Rows.{RestartsTaken, Connections, Resumptions, Broke};
ghost use Rattle.end_model.specs.Meant.{Answered, RestartsAnswered, SentIsMeant};

/// Marks, givings, pleas and restarts, as they are sent.
pub fn marks_sent()
    ensures rows { MarksSent }
{}

/// Marks, givings and confirmations, as they are taken.
pub fn marks_taken()
    ensures rows { MarksTaken }
{}

/// Interrupts, discards and ends of activities, as they are sent, and the release.
pub fn activities_sent()
    ensures rows { ActivitiesSent }
{}

/// Starts, ends, interrupts and discards of the peer's activity, and the confirmation of an own
/// end, as they are taken.
pub fn activities_taken()
    ensures rows { ActivitiesTaken }
{}

/// Refusals, releases and aborts, as they are taken.
pub fn association_taken()
    ensures rows { AssociationTaken }
{}

/// Parts, marks and the end of the own transfer, the start of the next, and its discard, as they
/// are sent.
pub fn transfers_sent()
    ensures rows { TransfersSent }
{}

/// Confirmations of the own transfer's marks and of its interrupt, as they are taken.
pub fn transfers_taken()
    ensures rows { TransfersTaken }
{}

/// Alterations, as they are sent.
pub fn alterations_sent()
    ensures rows { AlterationsSent }
{}

/// What is passed over while an own request is unanswered.
pub fn purged()
    ensures rows { Purged }
{}

/// What is passed over then of the words that settle no request.
pub fn purged_others()
    ensures rows { PurgedOthers }
{}

/// Givings of the turn in direct mode, as they are taken.
pub fn givings_taken()
    ensures rows { GivingsTaken }
{}

/// Restarts and their answers, as they are taken.
pub fn restarts_taken()
    ensures rows { RestartsTaken }
{}

/// Openings, recoveries, refused connections and own aborts.
pub fn connections()
    ensures rows { Connections }
{}

/// Resumptions: of the own transfer, as it is sent, and of the peer's activity with a part, as
/// they are taken.
pub fn resumptions()
    ensures rows { Resumptions }
{}

/// Breaks of the connection.
pub fn breaks()
    ensures rows { Broke }
{}

/// What is answered at once to marks, givings, activities and a release.
pub fn answered()
    ensures rows { Answered }
{}

/// What is answered at once to a restart.
pub fn restarts_answered()
    ensures rows { RestartsAnswered }
{}

/// What is sent of marks, givings, restarts, activities and a release.
pub fn sent()
    ensures rows { SentIsMeant }
{}
