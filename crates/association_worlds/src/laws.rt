//! Each law is the contract of a function that does nothing.

ghost use Rattle.association_worlds.specs.Laws.{MeantIsHeard, NothingFails, OctetsAreMessages, SaidIsMeant, WholeWaitsForNothing};

use association_reading::session_words_are_read_back;

/// Whatever two ends reach whose lines are octets, they reach by the messages that these octets
/// are; and what an end has and what the other still has are the octets of the messages on their
/// way.
pub fn octets_are_messages()
    ensures law { OctetsAreMessages }
{}

/// A message on its way of which no octet waits at its sender stands first at its taker.
pub fn whole_messages_wait_for_no_octet()
    ensures law { WholeWaitsForNothing }
{}

/// Where neither end ever fails and each word that is taken means itself, whatever comes is heard
/// as itself.
pub fn meant_is_heard()
    ensures law { MeantIsHeard }
{}

/// Neither end finds a fault in what came.
pub fn nothing_fails()
    ensures law { NothingFails }
{}

/// Where neither end ever fails, a word of the session alone means itself, so that less is to be
/// presumed.
pub fn said_is_meant()
    ensures law { SaidIsMeant }
{
    session_words_are_read_back();
}
