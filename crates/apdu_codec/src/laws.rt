//! The law that joins writing and reading, as the contract of a function that does nothing.

ghost use Rattle.apdu_codec.specs.Laws.{WrittenIsRead};

/// What is written for an APDU is read as a head that says it, unless memory is refused.
pub fn written_apdu_is_read()
    ensures { WrittenIsRead }
{}
