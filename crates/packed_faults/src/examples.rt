//! Worked first faults, each the contract of a function that does nothing.

ghost use Rattle.osi_base.specs.declared.layer_words.Kind.TheVariants.{Content};
ghost use Rattle.osi_base.specs.Limits.{most_octets};
ghost use Rattle.packed_codec.specs.declared.fault.PackedFault.TheVariants.{NotSpelled};
ghost use Rattle.packed_faults.specs.Examples.{with_default, set_of_integers, default_written, falling_items, large_size};
ghost use Rattle.packed_faults.specs.FirstFault.{FirstFault};

/// A part with its default's value is at fault in its last field.
pub fn default_is_written()
    ensures { FirstFault with_default 1 most_octets default_written (NotSpelled 4 Content) }
{}

/// An item of a SET OF that is less than the one before is at fault from its first octet on.
pub fn items_fall()
    ensures { FirstFault set_of_integers 1 most_octets falling_items (NotSpelled 6 Content) }
{}

/// A size past 8 announces nothing, also where the limit is near.
pub fn size_is_large()
    ensures { FirstFault set_of_integers 0 1 large_size (NotSpelled 0 Content) }
{}
