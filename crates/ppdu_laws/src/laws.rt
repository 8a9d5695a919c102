//! The laws, each the contract of a function that does nothing.

ghost use Rattle.ppdu_laws.specs.Laws.{WrittenPpduIsRead, PlainPpduIsSpelled, KnownPpduIsSpelled, KnownPpduIsValue};

/// What `write_ppdu` writes of a unit that may be written is spelled so, in a session unit that
/// carries it, and is read back.
pub fn written_ppdu_is_read()
    ensures { WrittenPpduIsRead }
{}

/// Octets that spell the value of a unit, with nothing that is passed over, spell the unit.
pub fn plain_ppdu_is_spelled()
    ensures { PlainPpduIsSpelled }
{}

/// Octets that spell a unit in known fields alone, of which none is passed over, spell the unit.
pub fn known_ppdu_is_spelled()
    ensures { KnownPpduIsSpelled }
{}

/// They spell a value of the table's row that says the unit.
pub fn known_ppdu_is_value()
    ensures { KnownPpduIsValue }
{}
