//! Rows of types (X.680): what a type is made of.

ghost use Rattle.std.specs.Prelude.{◌≡◌};

use osi_base::{ListOf, Name};

/// The number of a row in its table.
#[derive(Clone, Copy, Debug, PartialEq, Eq)]
pub struct TypeId(pub u32);

/// An item of an ENUMERATED (X.680 20).
#[derive(Debug, Drop)]
pub struct Item {
    /// The item's name.
    pub name: Name,
    /// The item's number.
    pub number: i64,
}

/// The items of an ENUMERATED, as a list.
pub type Named = ListOf<Item>;

/// A part of a SEQUENCE or SET, or an alternative of a CHOICE. Of an alternative `optional` means
/// nothing, and it has no default. A part isn't both optional and one with a default.
#[derive(Debug, Drop)]
pub struct Part {
    /// The part's name, or the alternative's.
    pub name: Name,
    /// Its type.
    pub inner: TypeId,
    /// Whether the part may be absent (OPTIONAL).
    pub optional: bool,
    /// For what the absent part stands (X.680 25.9): 0 or 1 of a BOOLEAN, the number of an
    /// INTEGER or of an item of an ENUMERATED.
    pub default: Option<i64>,
}

/// The parts of a SEQUENCE or SET, or the alternatives of a CHOICE, as a list.
pub type Parts = ListOf<Part>;

/// The kinds of text (X.680 41).
#[derive(Clone, Copy, Debug, PartialEq, Eq)]
pub enum TextKind {
    /// UTF8String.
    Utf8,
    /// IA5String: the octets `00` to `7F`.
    Ia5,
    /// VisibleString: the octets `20` to `7E`.
    Visible,
    /// PrintableString: letters, digits, space and `'()+,-./:=?`.
    Printable,
    /// NumericString: digits and space.
    Numeric,
}

/// The class of a tag (X.680 8.1).
#[derive(Clone, Copy, Debug, PartialEq, Eq)]
pub enum Class {
    /// UNIVERSAL: types of the notation itself.
    Universal,
    /// APPLICATION.
    Application,
    /// Context-specific: no word in the notation.
    Context,
    /// PRIVATE.
    Private,
}

/// A tag.
#[derive(Clone, Copy)]
pub struct Tag {
    /// The tag's class.
    pub class: Class,
    /// The tag's number.
    pub number: u32,
}

/// A type. It names the types that it is made of by their rows.
#[derive(Debug, Drop)]
pub enum TypeRow {
    /// BOOLEAN.
    Boolean,
    /// INTEGER from `low` to `high`, both included.
    Integer {
        /// The least number.
        low: i64,
        /// The greatest number.
        high: i64,
    },
    /// ENUMERATED.
    Enumerated(Named),
    /// NULL.
    Null,
    /// OCTET STRING of at most `most` octets.
    OctetString {
        /// How many octets at most.
        most: u32,
    },
    /// BIT STRING.
    BitString,
    /// OBJECT IDENTIFIER.
    ObjectId,
    /// The kinds of text.
    Text(TextKind),
    /// SEQUENCE.
    Sequence(Parts),
    /// SET.
    Set(Parts),
    /// SEQUENCE OF.
    SequenceOf(TypeId),
    /// SET OF.
    SetOf(TypeId),
    /// CHOICE.
    Choice(Parts),
    /// A type with a tag of its own, around the inner type's (explicit) or in its place. Over an
    /// untagged CHOICE or an `Any` each tag is explicit, also where `explicit` is false.
    Tagged {
        /// The tag's class.
        class: Class,
        /// The tag's number.
        number: u32,
        /// Whether the tag stands around the inner type's own.
        explicit: bool,
        /// The row of the inner type.
        inner: TypeId,
    },
    /// One whole BER value, kept as octets.
    Any,
}
