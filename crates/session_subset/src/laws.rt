//! Laws of the session machine. Each is the contract of a function that does nothing.

ghost use Rattle.session_subset.specs.Laws.{AnswersOfMode, AwaitedInPhase, SentIsWritable, TurnOrGiving, UnitsOfMode};

/// At each moment of a machine the turn is here, or is on its way to the peer, or neither.
pub fn turn_or_giving()
    ensures { TurnOrGiving }
{}

/// Activities are selected in reliable mode alone, and restarts in direct mode alone.
pub fn units_of_mode()
    ensures { UnitsOfMode }
{}

/// A giving is unanswered in reliable mode alone, and a restart in direct mode alone.
pub fn answers_of_mode()
    ensures { AnswersOfMode }
{}

/// What is sent for a word may be written as one TSDU, where its fields are ones that are read.
pub fn sent_is_writable()
    ensures { SentIsWritable }
{}

/// Unless the association is over, an own release is unanswered exactly in the phase of release,
/// and another own request only while the association stands.
pub fn awaited_in_phase()
    ensures { AwaitedInPhase }
{}
