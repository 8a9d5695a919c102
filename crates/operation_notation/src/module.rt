//! A module as it was read: each assignment with the places of its tokens.

use notation_tokens::Located;
use osi_base::{ListOf, Name, Oid};
use std::marker::Model;

/// A module: its name and object identifier, whether tags are implicit unless they say otherwise,
/// and its assignments in text order.
#[derive(Debug, Drop)]
pub struct ModuleText {
    /// The name of the module.
    pub name: Located,
    /// The object identifier of the module.
    pub name_oid: Oid,
    /// Whether tags are implicit unless they say otherwise.
    pub implicit: bool,
    /// The assignments in text order.
    pub assignments: Assignments,
}

/// Names with their places, in text order.
pub type Locateds = ListOf<Located>;

/// A name, and what it is assigned.
#[derive(Debug, Drop)]
pub struct Assignment {
    /// The name that is assigned.
    pub name: Located,
    /// What it is assigned.
    pub body: Assigned,
}

/// Assignments in text order.
pub type Assignments = ListOf<Assignment>;

/// What a name is assigned.
#[derive(Debug, Drop)]
pub enum Assigned {
    /// A type.
    Typed(TypeText),
    /// An operation (X.880 8.2).
    Operation(OpText),
    /// An error (X.880 8.3).
    Error(ErrText),
}

/// A type, with the place of its first token.
#[cycle(type_text)]
#[derive(Debug, Drop)]
pub struct TypeText {
    /// The line of the first token, counted from 1.
    pub line: u32,
    /// The column of the first token, counted in octets from 1.
    pub column: u32,
    /// The tag, where one is written.
    pub tag: Option<TagText>,
    /// The type without its tag.
    pub plain: PlainText,
}

/// A tag: its class from 0 to 3 (universal, application, context, private), its number, and
/// whether it is explicit, where that is written.
#[derive(Clone, Copy, Debug, PartialEq, Eq)]
pub struct TagText {
    /// The class: 0 universal, 1 application, 2 context, 3 private.
    pub class: u8,
    /// The number of the tag.
    pub number: u32,
    /// Whether the tag is explicit, where that is written.
    pub explicit: Option<bool>,
}

/// A type without its tag.
#[cycle(type_text)]
#[derive(Debug, Drop)]
pub enum PlainText {
    /// BOOLEAN.
    Boolean,
    /// NULL.
    Null,
    /// INTEGER, with the range of its values, where one is written.
    Integer(Option<RangeText>),
    /// ENUMERATED, with its items.
    Enumerated(ItemTexts),
    /// OCTET STRING, with the range of its size, where one is written.
    Octets(Option<RangeText>),
    /// BIT STRING.
    Bits,
    /// OBJECT IDENTIFIER.
    ObjectId,
    /// A text: 0 UTF8, 1 IA5, 2 Visible, 3 Printable, 4 Numeric.
    Text(u8),
    /// SEQUENCE OF this type.
    SequenceOf(Box<TypeText>),
    /// SET OF this type.
    SetOf(Box<TypeText>),
    /// SEQUENCE, with its parts.
    Sequence(PartTexts),
    /// SET, with its parts.
    Set(PartTexts),
    /// CHOICE, with its alternatives.
    Choice(PartTexts),
    /// A type that is named.
    Named(Located),
}

/// The ends of a range, with the place of the range's first token. MIN and MAX are the ends of
/// 64 bits.
#[derive(Clone, Copy, Debug, PartialEq, Eq)]
pub struct RangeText {
    /// The line of the first token, counted from 1.
    pub line: u32,
    /// The column of the first token, counted in octets from 1.
    pub column: u32,
    /// The low end, which is in the range.
    pub low: i64,
    /// The high end, which is in the range.
    pub high: i64,
}

/// An item of an ENUMERATED: its name and number.
#[derive(Debug, Drop)]
pub struct ItemText {
    /// The name of the item.
    pub name: Located,
    /// The number of the item.
    pub number: i64,
}

/// The items of an ENUMERATED in text order.
pub type ItemTexts = Vec<ItemText>;

/// A part of a SEQUENCE or SET, or an alternative of a CHOICE, which must stand. A part is never
/// both optional and has a default.
#[cycle(type_text)]
#[derive(Debug, Drop)]
pub struct PartText {
    /// The name of the part or alternative.
    pub name: Located,
    /// The type of the part or alternative.
    pub of: TypeText,
    /// Whether OPTIONAL is written.
    pub optional: bool,
    /// The default, where one is written.
    pub dflt: Option<DfltText>,
}

/// The default of a part, with the place of its token.
#[derive(Debug, Drop)]
pub struct DfltText {
    /// The line of the token, counted from 1.
    pub line: u32,
    /// The column of the token, counted in octets from 1.
    pub column: u32,
    /// The default.
    pub value: DfltValue,
}

/// A default as it is written: TRUE or FALSE, a number, or the name of an item.
#[derive(Debug, Drop)]
pub enum DfltValue {
    /// TRUE or FALSE.
    Truth(bool),
    /// A number.
    Number(i64),
    /// The name of an item of an ENUMERATED.
    Item(Name),
}

/// Parts in text order.
pub type PartTexts = Vec<PartText>;

/// The type of an argument, result or parameter, with the place of the word before it.
#[derive(Debug, Drop)]
pub struct UseText {
    /// The line of the word before the type, counted from 1.
    pub line: u32,
    /// The column of that word, counted in octets from 1.
    pub column: u32,
    /// The type.
    pub of: TypeText,
    /// Whether it is optional.
    pub optional: bool,
}

/// A code, with the place of its word `local` or `global`; it has exactly one of the two values.
#[derive(Debug, Drop)]
pub struct CodeText {
    /// The line of the word `local` or `global`, counted from 1.
    pub line: u32,
    /// The column of that word, counted in octets from 1.
    pub column: u32,
    /// The local value; `None` in a global code.
    pub local: Option<i64>,
    /// The global value, an object identifier; `None` in a local code.
    pub global: Option<Oid>,
}

/// An operation (X.880 8.2): its argument, its result, whether it returns a result and whether it
/// always responds, and the names of its errors and linked operations.
#[derive(Debug, Drop)]
pub struct OpText {
    /// The type of the argument, where there is one.
    pub argument: Option<UseText>,
    /// The type of the result, where one is written.
    pub result: Option<UseText>,
    /// Whether the operation returns a result.
    pub returns: bool,
    /// Whether the operation always responds.
    pub always: bool,
    /// The names of its errors, in text order.
    pub errors: Locateds,
    /// The names of its linked operations, in text order.
    pub linked: Locateds,
    /// The code of the operation, where one is written.
    pub code: Option<CodeText>,
}

/// An error (X.880 8.3): its parameter and code.
#[derive(Debug, Drop)]
pub struct ErrText {
    /// The type of the parameter, where there is one.
    pub parameter: Option<UseText>,
    /// The code of the error, where one is written.
    pub code: Option<CodeText>,
}

impl Model for TypeText {
    ghost use Rattle.operation_notation.specs.Tree.{TypeTree, depth};
    ghost use Rattle.operation_notation.specs.TreeCode.{coded_type};

    ghost Value = { TypeTree };

    ghost coded = { coded_type };

    ghost use Rattle.operation_notation.specs.TreeView.{type_of};

    ghost view = { type_of };

    ghost size = { depth };

    ghost use Rattle.operation_notation.specs.TreeFalls.{falls};

    ghost size_decreases = { λ t h. falls t.plain };
}
