//! Laws, each the contract of a function that does nothing.

ghost use Rattle.text_laws.specs.Laws.{FormsAreReadBack, TypedAreReadBack};

/// What a value prints as by its form is read back as that value by its form, where nothing follows
/// it, or a space, a comma or a closing brace: a BOOLEAN, a number of 64 bits, NULL, octets, bits
/// of which the unused are zero, an object identifier and a text.
pub fn printed_forms_are_read_back()
    ensures { FormsAreReadBack }
{}

/// What a value prints as by its type is read back as that value by the type, where it fits it and
/// nothing follows, or a space, a comma or a closing brace: of sound tables in which each name is a
/// word and no row is an `Any`, as those of modules are.
pub fn printed_values_are_read_back()
    ensures { TypedAreReadBack }
{}
