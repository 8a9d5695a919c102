//! The laws of APDUs, each the contract of a function that does nothing.

ghost use Rattle.apdu_spelling.specs.Laws.{WrittenIsSpelled, OneHead, OneApdu};
ghost use Rattle.apdu_spelling.specs.Laws.{HeadsHaveIdentifiers};

/// What is written for an APDU spells it, in each syntax.
pub fn written_apdu_is_spelled()
    ensures { WrittenIsSpelled }
{}

/// Octets spell one head at most.
pub fn one_head()
    ensures { OneHead }
{}

/// Octets spell one APDU at most.
pub fn one_apdu()
    ensures { OneApdu }
{}

/// The identifiers and linked identifiers of heads that octets spell have 32 bits.
pub fn heads_have_identifiers()
    ensures { HeadsHaveIdentifiers }
{}
