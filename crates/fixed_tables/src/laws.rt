//! The laws of whole values, each the contract of a function that does nothing.

ghost use Rattle.fixed_tables.specs.Laws.{WholeIsSpelled, SpelledIsWhole};

/// What is read is spelled by all of the octets.
pub fn whole_is_spelled()
    ensures { WholeIsSpelled }
{}

/// What all of the octets spell is read.
pub fn spelled_is_whole()
    ensures { SpelledIsWhole }
{}
