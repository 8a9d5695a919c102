//! The laws of reading, each the contract of a function that does nothing.

ghost use Rattle.ber_spelling.specs.Laws.{ReadIsSpelled, SpelledIsRead, NoneBegins, ReadStays, FaultStays, FaultIsFirst, WiderStays, WiderIsLong, ShortIsWithin, BeginningIsShort, WrittenIsSpelled, WrittenIsRead, DerIsBer, DerIsBerInForm, OneOfThree, DerIsWhole, DerIsWritten, SpelledFits, UnusedBitsAreZeros, UnusedBitsAreCleared};

/// What is read is spelled by the octets used.
pub fn read_is_spelled()
    ensures { ReadIsSpelled }
{}

/// What is spelled is read, whatever follows.
pub fn spelled_is_read()
    ensures { SpelledIsRead }
{}

/// No spelling of a row's values begins another, and each spells one value.
pub fn none_begins()
    ensures { NoneBegins }
{}

/// What was read stays so, whatever follows.
pub fn read_stays()
    ensures { ReadStays }
{}

/// A fault stays so, whatever follows.
pub fn fault_stays()
    ensures { FaultStays }
{}

/// A fault but `Short` has a place inside the octets, and octets that end before it are `Short`.
pub fn fault_is_first()
    ensures { FaultIsFirst }
{}

/// Under a larger limit every answer but `TooLong` stays.
pub fn wider_stays()
    ensures { WiderStays }
{}

/// What is read under a larger limit with more octets than a smaller one is `TooLong` under that.
pub fn wider_is_long()
    ensures { WiderIsLong }
{}

/// Octets that are `Short` are at most as many as the limit.
pub fn short_is_within()
    ensures { ShortIsWithin }
{}

/// A proper beginning of a spelling is `Short`.
pub fn beginning_is_short()
    ensures { BeginningIsShort }
{}

/// What is written of a value that has the form of its row, as one that fits has, is spelled so, in
/// DER too.
pub fn written_is_spelled()
    ensures { WrittenIsSpelled }
{}

/// What is written of such a value is read back as the value, whatever follows.
pub fn written_is_read()
    ensures { WrittenIsRead }
{}

/// What is spelled in DER is spelled so in BER.
pub fn der_is_ber()
    ensures { DerIsBer }
{}

/// Read in DER, octets give what they give in BER, or have a fault of kind Form. So, with
/// `read_is_spelled` and `spelled_is_read`, DER is the part of BER without such a fault.
pub fn der_is_ber_in_form()
    ensures { DerIsBerInForm }
{}

/// What is spelled has the form of its row. So, with `read_is_spelled`, has what is read. It fits
/// unless its DER spelling or its packed one has more than 4,294,967,295 octets.
pub fn spelled_fits()
    ensures { SpelledFits }
{}

/// In BER unused bits of any values spell the BIT STRING in which they are zeros (X.690 8.6.2.3),
/// in whatever form it stands: with lengths of either form, in segments, under tags. This is of a
/// value that is a BIT STRING; of one inside another value `spelled_fits` says that its unused bits
/// are zeros.
pub fn unused_bits_are_zeros()
    ensures { UnusedBitsAreZeros }
{}

/// So in one segment: contents that tell the unused bits, and octets in which these have any
/// values, spell the BIT STRING of the octets with these bits cleared.
pub fn unused_bits_are_cleared()
    ensures { UnusedBitsAreCleared }
{}

/// Of all octets one holds and no other: a first part is a spelling, there is a first fault, or
/// they are too short.
pub fn one_of_three()
    ensures { OneOfThree }
{}

/// A DER spelling is one whole value, whatever its type. So, with `written_is_spelled`, is what is
/// written of a value that fits.
pub fn der_is_whole()
    ensures { DerIsWhole }
{}

/// What spells a value in DER is what is written of it: a value has one DER spelling (X.690 10,
/// 11).
pub fn der_is_written()
    ensures { DerIsWritten }
{}
