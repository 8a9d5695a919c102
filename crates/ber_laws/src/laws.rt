//! The laws, each the contract of a function that does nothing.

ghost use Rattle.ber_laws.specs.Laws.{SpelledIsValue, UnusedBitsMayBeAny};

/// What spells a value, in BER or DER, is one whole value of any type: all its octets, and no more.
pub fn spelled_is_value()
    ensures { SpelledIsValue }
{}

/// In BER the unused bits of a BIT STRING that stands anywhere inside a value may have any values
/// (X.690 8.6.2.3), and the octets spell the value in which they are zeros.
pub fn unused_bits_may_be_any()
    ensures { UnusedBitsMayBeAny }
{}
