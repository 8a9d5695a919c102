//! Each law is the contract of a function with an empty body.

ghost use Rattle.outcome_laws.specs.Exchanges.{AllHaveExchanges, ExchangesAreReached, EachMetOrComing};
ghost use Rattle.outcome_laws.specs.Links.{LinksAreAllowed};
ghost use Rattle.outcome_laws.specs.Outcomes.{OneOutcome, OutcomesAreAllowed, OutcomesAreAnswers};
ghost use Rattle.outcome_laws.specs.Transferred.{TransferredAnswers};
ghost use Rattle.outcome_laws.specs.Worked.{OneAnswer};

/// One outcome, in every mode: whatever two ends reach, an end is told at most one outcome of each
/// invocation, a result, an error or a reject; it is of an own invocation, whose operation allows
/// it. A linked invocation that it is shown is linked to an own one, whose operation may have it
/// linked. Each message on this connection was taken or passed over in its place, or is still on
/// its way.
pub fn one_outcome()
    ensures outcomes { OneOutcome }
    ensures allowed { OutcomesAreAllowed }
    ensures links { LinksAreAllowed }
    ensures places { EachMetOrComing }
    ensures reached { ExchangesAreReached }
    ensures all { AllHaveExchanges }
{}

/// Each outcome that an end is told is an answer of the other end: an APDU that it handed in, or a
/// reject of its own, with that invocation and that value; in bare and in direct mode with nothing
/// presumed, in reliable mode where transfers are read back as they were written.
pub fn outcomes_are_answers()
    ensures answers { OutcomesAreAnswers }
    ensures transferred { TransferredAnswers }
{}

/// A worked history in bare mode: an end invokes, the other answers, and the first is told of it.
pub fn one_answer()
    ensures worked { OneAnswer }
{}
