//! That every run keeps all laws: the contract of a function that does nothing but cite others.

ghost use Rattle.codec_runs.specs.DirectLaws.{DirectRunsHaveOneHolder, DirectRunsKeepLaws, DirectRunsNeverFail, DirectRunsTakeInPlace};
ghost use Rattle.codec_runs.specs.DirectLaws.{DirectRunsShowWhatIsTaken, DirectRunsTellAnswers, DirectRunsTellOneOutcome};

use association_runs::{nothing_whole_waits, runs_reach_messages, runs_tell_one_outcome};
use association_worlds::said_is_meant;
use counted_runs::messages_are_taken_when_whole;
use end_laws::{direct_ends_are_modelled, direct_turn_has_one_holder};
use end_model::bare_ends_are_modelled;
use said_worlds::direct_ends_are_said;

/// Every run of two ends of direct mode: at each moment each message that was taken is the one that
/// was sent in its place of the connection, each of its values, but those of openings, their
/// answers and aborts, read under the pair that the shared set gave its context at the sending;
/// each carry shows what the messages show that are taken in it, and nothing else; no end aborts of
/// itself, and none is dead; at no moment do both hold the token. Of the whole transcript, each
/// invocation that an end is told of was made at the other and comes once; each gets at most one
/// outcome, which its operation has, and a result or an error is what the other end answered. An
/// end that isn't over took each message whose last octet was given to it, and no other, and less
/// than a message is left of what came to it.
pub fn direct_runs_keep_laws()
    ensures places { DirectRunsTakeInPlace }
    ensures shown { DirectRunsShowWhatIsTaken }
    ensures calm { DirectRunsNeverFail }
    ensures holder { DirectRunsHaveOneHolder }
    ensures outcomes { DirectRunsTellOneOutcome }
    ensures answers { DirectRunsTellAnswers }
    ensures all { DirectRunsKeepLaws }
{
    runs_reach_messages();
    runs_tell_one_outcome();
    messages_are_taken_when_whole();
    nothing_whole_waits();
    said_is_meant();
    direct_ends_are_modelled();
    direct_turn_has_one_holder();
    bare_ends_are_modelled();
    direct_ends_are_said();
}
