//! Each law is the contract of a function that does nothing.

ghost use Rattle.transfer_spelling.specs.Laws.{TransferablesAreWritable, ValuesAreTransfers};

/// An APDU that is transferred may be written in each of the three syntaxes.
pub fn transferables_are_writable()
    ensures law { TransferablesAreWritable }
{}

/// The octets of an APDU that may be written are the value of a transfer of at most 262,400 octets.
pub fn values_are_transfers()
    ensures law { ValuesAreTransfers }
{}
