//! What may be wrong with a module that reads.

use std::fmt;

/// What is wrong with a module that reads. Of two faults at one token the one that stands earlier
/// here is told.
#[derive(Clone, Copy, Debug, PartialEq, Eq)]
pub enum TableKind {
    /// A name that is used and assigned nowhere, or a Name that is used as a type and isn't
    /// assigned one.
    UnknownName,
    /// A name in LINKED that isn't an operation's.
    NotOperation,
    /// A name in ERRORS that isn't an error's.
    NotError,
    /// A name that is assigned before, a part or item whose name stands before in its type, or an
    /// item whose number does.
    DoubleName,
    /// A code that an earlier operation has, or an earlier error.
    DoubleCode,
    /// An operation or error without a code.
    NoCode,
    /// The first type assignment that reaches itself by names used as types.
    Recursive,
    /// An assignment whose row would nest more than 32 deep.
    TooNested,
    /// A part that its tags don't tell from an earlier one.
    TagsNotDistinct,
    /// An empty range, a SIZE that doesn't begin with 0 or passes 4,294,967,295, a type with the
    /// tag UNIVERSAL 0, or the 257th alternative of a CHOICE.
    BadRange,
    /// A result with a type where RETURN RESULT is FALSE.
    Contradiction,
    /// A default of a type other than BOOLEAN, INTEGER and ENUMERATED, or one that doesn't fit its
    /// type.
    BadDefault,
}

impl TableKind {
    ghost use Rattle.std.specs.Prelude.{◌≡◌};
    ghost use Rattle.module_faults.specs.Printed.{table_kind_word};

    /// The name of the kind.
    pub fn word(self) -> &'static str
        ensures { result.now ≡ table_kind_word self }
    {
        match self {
            TableKind::UnknownName => "UnknownName",
            TableKind::NotOperation => "NotOperation",
            TableKind::NotError => "NotError",
            TableKind::DoubleName => "DoubleName",
            TableKind::DoubleCode => "DoubleCode",
            TableKind::NoCode => "NoCode",
            TableKind::Recursive => "Recursive",
            TableKind::TooNested => "TooNested",
            TableKind::TagsNotDistinct => "TagsNotDistinct",
            TableKind::BadRange => "BadRange",
            TableKind::Contradiction => "Contradiction",
            TableKind::BadDefault => "BadDefault",
        }
    }
}

impl fmt::Display for TableKind {
    ghost use Rattle.std.specs.Prelude.{Some};
    ghost use Rattle.module_faults.specs.Printed.{table_kind_word};

    ghost output = { λ kind. Some (table_kind_word kind) };

    fn fmt<W: fmt::Write>(&self, f: &mut fmt::Formatter<W>) -> fmt::Result {
        f.write_str(self.word())
    }
}
