//! Worked first faults, each the contract of a function that does nothing.

ghost use Rattle.osi_base.specs.declared.layer_words.Kind.TheVariants.{Tag, Length, Form};
ghost use Rattle.ber_faults.specs.Examples.{with_default, set_of_integers, string_table, number_and_flag, default_written, falling_items, cut_by_its_end, half_a_mark, twice_and_constructed, nested_strings};
ghost use Rattle.ber_faults.specs.FirstFault.{FirstFault, BerFault, DerFault};
ghost use Rattle.ber_spelling.specs.declared.fault.ReadFault.TheVariants.{NotSpelled, TooLong, TooDeep};
ghost use Rattle.std.specs.Prelude.{false};

/// In DER a part with its default's value has Form at its contents.
pub fn default_is_written()
    ensures { DerFault with_default 1 default_written (NotSpelled 7 Form) }
{}

/// In DER an item of a SET OF that is less than the one before has Form at its identifier.
pub fn items_fall()
    ensures { DerFault set_of_integers 1 falling_items (NotSpelled 5 Form) }
{}

/// A field that would cross the end of its contents has Length at its place.
pub fn contents_cut_a_field()
    ensures { BerFault with_default 1 cut_by_its_end (NotSpelled 3 Length) }
{}

/// Half a mark that lies past the limit is too long.
pub fn mark_passes_the_limit()
    ensures { FirstFault string_table 0 false 5 half_a_mark (TooLong 5) }
{}

/// A part that comes twice, in the wrong form, has Tag: that comes first.
pub fn part_comes_twice_in_another_form()
    ensures { BerFault number_and_flag 2 twice_and_constructed (NotSpelled 5 Tag) }
{}

/// Inside 32 strings of segments one more is too deep, at its identifier.
pub fn strings_nest_too_deep()
    ensures { BerFault string_table 0 (nested_strings 32) (TooDeep 64) }
{}
