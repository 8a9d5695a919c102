//! That every run keeps all laws: the contract of a function that does nothing but cite others.

ghost use Rattle.codec_runs.specs.ReliableLaws.{ReliableRunsHaveOneHolder, ReliableRunsNeverFail, ReliableRunsTakeInPlace};
ghost use Rattle.codec_runs.specs.ReliableLaws.{ReliableRunsArriveOnce, ReliableRunsArriveWhole, ReliableRunsTellAnswers};
ghost use Rattle.codec_runs.specs.ReliableLaws.{ReliableRunsKeepLaws, ReliableRunsShowWhatIsTaken, ReliableRunsTellOneOutcome};

use association_runs::{nothing_whole_waits, runs_reach_messages, runs_tell_one_outcome};
use association_worlds::said_is_meant;
use counted_runs::messages_are_taken_when_whole;
use said_worlds::reliable_ends_are_said;

/// Every run of two ends of reliable mode: at each moment each message that was taken is the one
/// that was sent in its place of the connection, each of its values, but those of openings, their
/// answers and aborts, read under the pair that the shared set gave its context at the sending;
/// each carry shows what the messages show that are taken in it; an end that isn't over took each
/// message whose last octet was given to it, and no other, and less than a message is left of what
/// came to it; no end aborts of itself, and none is dead; at no moment do both hold the turn. Each
/// transfer that is handed up is the item that the other end started as the activity of that
/// number, as it was encoded last, and the numbers rise over the whole run. Of the whole
/// transcript, each invocation that an end is told of was made at the other and comes once; each
/// gets at most one outcome, which its operation has, and a result or an error is what the other
/// end answered.
pub fn reliable_runs_keep_laws()
    ensures places { ReliableRunsTakeInPlace }
    ensures shown { ReliableRunsShowWhatIsTaken }
    ensures calm { ReliableRunsNeverFail }
    ensures holder { ReliableRunsHaveOneHolder }
    ensures whole { ReliableRunsArriveWhole }
    ensures once { ReliableRunsArriveOnce }
    ensures outcomes { ReliableRunsTellOneOutcome }
    ensures answers { ReliableRunsTellAnswers }
    ensures all { ReliableRunsKeepLaws }
{
    runs_reach_messages();
    runs_tell_one_outcome();
    messages_are_taken_when_whole();
    nothing_whole_waits();
    said_is_meant();
    reliable_ends_are_said();
}
