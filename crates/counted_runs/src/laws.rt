//! The law is the contract of a function that does nothing but cite others.

ghost use Rattle.counted_runs.specs.Laws.{RunsTakeWhatIsWhole};

use prefix_laws::beginnings_bring_nothing;

/// After each event of a run of two ends, an end that isn't over took or passed over each message
/// whose last octet was given to it, and no other. Presumed is that the mode isn't bare, that
/// neither end ever fails with messages, and that each word that is taken may be written and means
/// itself.
pub fn messages_are_taken_when_whole()
    ensures law { RunsTakeWhatIsWhole }
{
    beginnings_bring_nothing();
}
