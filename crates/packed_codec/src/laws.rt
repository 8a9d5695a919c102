//! The laws of the packed syntax, each the contract of a function that does nothing.

ghost use Rattle.packed_codec.specs.Laws.{ReadIsSpelled, SpelledIsRead, OneSpelling, NoneBegins, ReadStays, FaultStays, FaultIsFirst, OneOfThree, WiderStays, WiderIsLong, ShortIsWithin, BeginningIsShort, WrittenIsRead, FittingPacks};

/// What is read is spelled by the octets used.
pub fn read_is_spelled()
    ensures { ReadIsSpelled }
{}

/// What is spelled is read, whatever follows.
pub fn spelled_is_read()
    ensures { SpelledIsRead }
{}

/// A value has one spelling.
pub fn one_spelling()
    ensures { OneSpelling }
{}

/// No spelling of a row's values begins another, and each spells one value.
pub fn none_begins()
    ensures { NoneBegins }
{}

/// What was read stays so, whatever follows.
pub fn read_stays()
    ensures { ReadStays }
{}

/// A fault stays so, whatever follows.
pub fn fault_stays()
    ensures { FaultStays }
{}

/// A fault is the first from the left: octets that end before its place are `Short`.
pub fn fault_is_first()
    ensures { FaultIsFirst }
{}

/// Of all octets one holds and no other: a first part is a spelling, there is a first fault, or
/// they are too short.
pub fn one_of_three()
    ensures { OneOfThree }
{}

/// Under a larger limit every answer but `TooLong` stays.
pub fn wider_stays()
    ensures { WiderStays }
{}

/// What is read under a larger limit with more octets than a smaller one is `TooLong` under that.
pub fn wider_is_long()
    ensures { WiderIsLong }
{}

/// Octets that are `Short` are at most as many as the limit.
pub fn short_is_within()
    ensures { ShortIsWithin }
{}

/// A proper beginning of a spelling is `Short`.
pub fn beginning_is_short()
    ensures { BeginningIsShort }
{}

/// What is written of a value is read back, whatever follows.
pub fn written_is_read()
    ensures { WrittenIsRead }
{}

/// In a table without `Any` each value that fits has a spelling.
pub fn fitting_packs()
    ensures { FittingPacks }
{}
