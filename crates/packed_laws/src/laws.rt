//! Each law is the contract of a function that does nothing.

ghost use Rattle.packed_laws.specs.Laws.{FittingIsPacked, ItemsTakeOctets, PackedAreOctets, PackedHasSize};

/// In a table without `Any` each value that fits has a packed spelling.
pub fn fitting_is_packed()
    ensures law { FittingIsPacked }
{}

/// Each item of a list takes two octets at least in DER.
pub fn items_take_octets()
    ensures law { ItemsTakeOctets }
{}

/// The packed spelling of a value are octets.
pub fn packed_are_octets()
    ensures law { PackedAreOctets }
{}

/// The packed spelling of a value has as many octets as `packed_size` tells, by which `fits` asks
/// that they are at most 4,294,967,295.
pub fn packed_has_size()
    ensures law { PackedHasSize }
{}
