//! The laws of APDUs of association control, each the contract of a function that does nothing.

ghost use Rattle.acse.specs.Laws.{AcseIsSpelled, SpelledAcseIsRead, AcseFaultIsFirst, PlainIsSpelled, KnownArePlain, WrittenAcseIsRead};

/// What is read is spelled by the octets.
pub fn acse_is_spelled()
    ensures { AcseIsSpelled }
{}

/// What octets spell is read of them. So they spell one APDU at most.
pub fn spelled_acse_is_read()
    ensures { SpelledAcseIsRead }
{}

/// A fault is the first from the left.
pub fn acse_fault_is_first()
    ensures { AcseFaultIsFirst }
{}

/// Octets that spell a value of the fixed table have no field that is passed over, and spell the
/// APDU that the value says.
pub fn plain_is_spelled()
    ensures { PlainIsSpelled }
{}

/// APDUs of known fields alone, of which none is passed over, and values of the fixed table stand
/// for each other.
pub fn known_are_plain()
    ensures { KnownArePlain }
{}

/// What is written of an APDU that may be written is spelled so and read back.
pub fn written_acse_is_read()
    ensures { WrittenAcseIsRead }
{}
