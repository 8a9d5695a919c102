//! Each law is the contract of a function that does nothing.

ghost use Rattle.said_words.specs.Laws.{DirectSaysWords, ReliableSaysWords};

/// Each message on its way between two ends of direct mode is one that the rules make of their
/// configurations and of calls as their types have them: its numbers, names and lists are within
/// the limits of an end.
pub fn direct_ends_say_words()
    ensures law { DirectSaysWords }
{}

/// So it is between two ends of reliable mode, where data are parts of transfers.
pub fn reliable_ends_say_words()
    ensures law { ReliableSaysWords }
{}
