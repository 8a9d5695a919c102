//! Each law is the contract of a function that does nothing.

ghost use Rattle.prefix_laws.specs.Laws.{BeginningsBringNothing, OnlyTheLastPacketHandsUp};

/// Of the packets of a TSDU that is written the last alone hands it up, and no data are left
/// behind it.
pub fn only_the_last_packet_hands_up()
    ensures law { OnlyTheLastPacketHandsUp }
{}

/// What came of a message brings nothing before its last octet, and is right so far: a reader makes
/// of whole messages and a proper beginning of the next the fronts of the whole ones alone.
pub fn beginnings_bring_nothing()
    ensures law { BeginningsBringNothing }
{}
