//! Each law is the contract of a function that does nothing.

ghost use Rattle.association_line.specs.OneFeed.{OneCall, OneFeed};
ghost use Rattle.association_line.specs.OwnActs.{OwnActsEnd, OwnActsLessen};
ghost use Rattle.association_line.specs.Reactions.{ReactionsAreSteps};

/// Octets that come to an end are read in one way, and make it do the same by itself.
pub fn one_feed()
    ensures law { OneFeed }
{}

/// A call makes one list of steps: its answer, what it makes due, and what the end then does by
/// itself.
pub fn one_call()
    ensures law { OneCall }
{}

/// What an end does by itself comes to an end: each thing that it does leaves less to be done.
pub fn own_acts_end()
    ensures less { OwnActsLessen }
    ensures end { OwnActsEnd }
{}

/// What is taken is the message that stands first, with the body that its taking leaves; after a
/// fault the end is over; no answer and no abort is a CR.
pub fn reactions_are_steps()
    ensures law { ReactionsAreSteps }
{}
