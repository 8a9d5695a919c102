//! Classes and kinds of text by the numbers that stand for them.

ghost use Rattle.std.specs.Prelude.{◌≡◌};
ghost use Rattle.asn1_types.specs.Numbered.{kind_numbered, class_numbered};

use crate::row::{Class, TextKind};

/// The kind of text of this number.
pub fn kind_numbered(number: i64) -> Option<TextKind>
    ensures { result ≡ kind_numbered number }
{
    match number {
        0 => Some(TextKind::Utf8),
        1 => Some(TextKind::Ia5),
        2 => Some(TextKind::Visible),
        3 => Some(TextKind::Printable),
        4 => Some(TextKind::Numeric),
        _ => None,
    }
}

/// The class of this number.
pub fn class_numbered(number: i64) -> Option<Class>
    ensures { result ≡ class_numbered number }
{
    match number {
        0 => Some(Class::Universal),
        1 => Some(Class::Application),
        2 => Some(Class::Context),
        3 => Some(Class::Private),
        _ => None,
    }
}
