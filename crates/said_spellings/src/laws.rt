//! The law is the contract of a function that does nothing.

ghost use Rattle.said_spellings.specs.Laws.{SaidAreCarried};

/// Whatever two ends of direct mode or of reliable mode say may be written: each unit of the
/// session, of the presentation protocol and of the transport has fields that are read, and a
/// length that may be told.
pub fn said_are_carried()
    ensures law { SaidAreCarried }
{}
