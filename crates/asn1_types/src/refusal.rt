//! Why a row isn't added to a table.

ghost use Rattle.std.specs.Prelude.{◌≡◌};
ghost use Rattle.asn1_types.specs.declared.refusal.RowRefusal.TheVariants.{NoMemory as no_room};

use osi_base::{NoMemory, WordWithNumber};
use std::alloc::AllocFailed;
use std::error::Error;
use std::fmt;

/// Why a row isn't added to a table.
#[derive(Clone, Copy, Debug, PartialEq, Eq)]
pub enum RowRefusal {
    /// The row names this row, and there is no such row yet.
    NoSuchRow(u32),
    /// A range whose low end is above its high end, an ENUMERATED or CHOICE without an item, a
    /// CHOICE of more than 256 alternatives, or the tag UNIVERSAL 0.
    BadRange,
    /// Two parts or items have one name, or two items one number.
    DoubleName,
    /// The row would nest more than 32 deep.
    TooNested,
    /// A tag doesn't tell the parts apart.
    TagsNotDistinct,
    /// A part with a default is optional too or an alternative, or its type isn't BOOLEAN, INTEGER
    /// or ENUMERATED, perhaps under tags, or the default doesn't fit it.
    BadDefault,
    /// Memory was refused.
    NoMemory,
}

impl fmt::Display for RowRefusal {
    ghost use Rattle.std.specs.Prelude.{Some};
    ghost use Rattle.asn1_types.specs.Printed.{row_refusal_text};

    ghost output = { λ refusal. Some (row_refusal_text refusal) };

    fn fmt<W: fmt::Write>(&self, f: &mut fmt::Formatter<W>) -> fmt::Result {
        match self {
            RowRefusal::NoSuchRow(row) => fmt::Display::fmt(
                &WordWithNumber {
                    word: "there is no row",
                    number: Some(i64::from(*row)),
                },
                f,
            ),
            RowRefusal::BadRange => f.write_str(
                "a range, an ENUMERATED, a CHOICE or a tag that can't be",
            ),
            RowRefusal::DoubleName => f.write_str(
                "two parts or items have one name, or two items one number",
            ),
            RowRefusal::TooNested => f.write_str("nested more than 32 deep"),
            RowRefusal::TagsNotDistinct => f.write_str("a tag doesn't tell the parts apart"),
            RowRefusal::BadDefault => f.write_str(
                "a default that may not stand here, or doesn't fit its type",
            ),
            RowRefusal::NoMemory => f.write_str("out of memory"),
        }
    }
}

impl Error for RowRefusal {}

impl<T: Drop> From<AllocFailed<T>> for RowRefusal {
    ghost from_gives = { λ _ e. e ≡ no_room };

    fn from(_error: AllocFailed<T>) -> RowRefusal {
        RowRefusal::NoMemory
    }
}

impl From<NoMemory> for RowRefusal {
    ghost from_gives = { λ _ e. e ≡ no_room };

    fn from(_error: NoMemory) -> RowRefusal {
        RowRefusal::NoMemory
    }
}
