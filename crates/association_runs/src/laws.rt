//! Each law is the contract of a function that does nothing but cite others.

ghost use Rattle.association_runs.specs.Laws.{OneRun, RunsHaveOneHolder, RunsNeverFail, RunsReachMessages, RunsShowWhatIsTaken, RunsTakeInPlace, RunsTransferWhole};
ghost use Rattle.association_runs.specs.Laws.{RunsLeaveNothingWhole, RunsTellAnswers, RunsTellOneOutcome};

use association_line::{one_call, one_feed};
use outcome_laws::{one_outcome, outcomes_are_answers};

/// Events have one run from one world.
pub fn one_run()
    ensures law { OneRun }
{
    one_feed();
    one_call();
}

/// Every run of two ends whose lines are octets reaches what the messages reach that these octets
/// are; the shared set and the exchanges are read off its moments. At each moment each message that
/// was taken is the one that was sent in its place of the connection; each carry shows what the
/// messages show that are taken in it, and nothing else; no end aborts of itself; and at no moment
/// do both hold the turn and each transfer arrives whole, where so it is of their messages.
/// Presumed is that the mode isn't bare, that neither end ever fails with messages, and that each
/// word that is taken may be written and means itself.
pub fn runs_reach_messages()
    ensures reached { RunsReachMessages }
    ensures places { RunsTakeInPlace }
    ensures shown { RunsShowWhatIsTaken }
    ensures calm { RunsNeverFail }
    ensures holder { RunsHaveOneHolder }
    ensures whole { RunsTransferWhole }
{}

/// In every such run an end is told at most one outcome of each invocation since its association
/// began; each is one of an own invocation, of a kind that its operation allows; a linked
/// invocation is linked to an own one that may have it linked. Outside reliable mode each outcome
/// is an APDU that the other end wrote: one that a call handed in, or a reject.
pub fn runs_tell_one_outcome()
    ensures once { RunsTellOneOutcome }
    ensures answers { RunsTellAnswers }
{
    one_outcome();
    outcomes_are_answers();
}

/// After each event of a run of two ends, less than a message is left of what came to an end that
/// isn't over: it reacted to all that came whole. This is so of every run, whatever the octets are.
pub fn nothing_whole_waits()
    ensures law { RunsLeaveNothingWhole }
{}
