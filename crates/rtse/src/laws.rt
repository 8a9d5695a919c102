//! Laws of a transfer between two ends. Each is the contract of a function with an empty body.

ghost use Rattle.rtse.specs.Exchange.{Exchange, IsReached, NothingIsRefused, ArrivesWhole};

/// Nothing is refused: whatever chunks, marks, confirmations, breaks and resumptions came before,
/// each word that comes next is taken, and each confirmation is of the mark that is due.
pub fn nothing_is_refused()
    ensures law { (e : Exchange) → IsReached e → NothingIsRefused e }
{}

/// A transfer arrives whole: what its end brings are the octets that its sender was given, through
/// any breaks and resumptions.
pub fn arrives_whole()
    ensures law { (e : Exchange) → IsReached e → ArrivesWhole e }
{}
