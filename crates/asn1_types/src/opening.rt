//! The tags that values begin with.

ghost use Rattle.std.specs.Prelude.{◌≡◌, ◌<◌, ◌≤◌, Some, length};
ghost use Rattle.std.specs.List.{list_any, flat_map, AllByRecursion};
ghost use Rattle.asn1_types.specs.Rows.{allows, meets, tag, openings, openings_by, begins, same_class, rows_of_parts, text_number, is_no_tag};
ghost use Rattle.asn1_types.specs.Table.{IsRowOf};

use crate::row::{Class, Part, TextKind, TypeId, TypeRow};
use crate::table::TypeTable;

/// Whether the two are one class.
pub fn same_class(a: Class, b: Class) -> bool
    ensures { result ≡ same_class a b }
{
    a as u8 == b as u8
}

fn is_tag(class: Class, number: u64, own: Class, own_number: u32) -> bool
    ensures { result ≡ allows class number (tag own own_number) }
{
    same_class(class, own) && number == own_number as u64
}

/// The universal tag of a kind of text (X.680 8.4).
pub fn text_number(kind: TextKind) -> u32
    ensures { result ≡ text_number kind }
{
    match kind {
        TextKind::Utf8 => 12,
        TextKind::Numeric => 18,
        TextKind::Printable => 19,
        TextKind::Ia5 => 22,
        TextKind::Visible => 26,
    }
}

/// Whether a value of this row may begin with this tag.
pub fn begins(table: &TypeTable, of: TypeId, class: Class, number: u64) -> bool
    requires { of.0 < length table.now }
    ensures { result ≡ begins table.now of.0 class number }
{
    !is_no_tag(class, number) && opens(table, of, class, number)
}

/// Whether this is UNIVERSAL 0, which is no tag.
pub fn is_no_tag(class: Class, number: u64) -> bool
    ensures { result ≡ is_no_tag class number }
{
    same_class(class, Class::Universal) && number == 0
}

#[cycle(opening)]
fn opens(table: &TypeTable, of: TypeId, class: Class, number: u64) -> bool
    requires { of.0 < length table.now }
    ensures { result ≡ list_any (allows class number) (openings table.now of.0) }
{
    opens_row(table, of, table.row(of), class, number)
}

#[cycle(opening)]
fn opens_row(table: &TypeTable, of: TypeId, row: &TypeRow, class: Class, number: u64) -> bool
    requires row { IsRowOf table.now of.0 row.now }
    ensures { result ≡ list_any (allows class number) (openings_by (openings table.now) row.now) }
{
    let own = match row {
        TypeRow::Choice(parts) => return any_opens(table, of, parts.as_slice(), class, number),
        TypeRow::Tagged {
            class: own,
            number: own_number,
            ..
        } => {
            return is_tag(class, number, *own, *own_number);
        }
        TypeRow::Any => return true,
        TypeRow::Boolean => 1,
        TypeRow::Integer { .. } => 2,
        TypeRow::BitString => 3,
        TypeRow::OctetString { .. } => 4,
        TypeRow::Null => 5,
        TypeRow::ObjectId => 6,
        TypeRow::Enumerated(_) => 10,
        TypeRow::Text(kind) => text_number(*kind),
        TypeRow::Sequence(_) | TypeRow::SequenceOf(_) => 16,
        TypeRow::Set(_) | TypeRow::SetOf(_) => 17,
    };
    is_tag(class, number, Class::Universal, own)
}

#[cycle(opening)]
fn any_opens(table: &TypeTable, of: TypeId, parts: &[Part], class: Class, number: u64) -> bool
    requires below { AllByRecursion (λ m. m < of.0) (rows_of_parts parts.now) }
    requires within { of.0 ≤ length table.now }
    ensures { result ≡ list_any (allows class number) (flat_map (λ p. openings table.now p.inner.0)
        parts.now) }
{
    for part in parts {
        if opens(table, part.inner, class, number) {
            return true;
        }
    }
    false
}

/// Whether some tag opens values of both rows.
#[cycle(meeting)]
pub(crate) fn meet(table: &TypeTable, a: TypeId, b: TypeId) -> bool
    requires a { a.0 < length table.now }
    requires b { b.0 < length table.now }
    ensures { result ≡ list_any (λ o. list_any (meets o) (openings table.now b.0))
        (openings table.now a.0) }
{
    meets_row(table, a, table.row(a), b)
}

#[cycle(meeting)]
fn meets_row(table: &TypeTable, a: TypeId, row: &TypeRow, b: TypeId) -> bool
    requires row { IsRowOf table.now a.0 row.now }
    requires b { b.0 < length table.now }
    ensures { result ≡ list_any (λ o. list_any (meets o) (openings table.now b.0))
        (openings_by (openings table.now) row.now) }
{
    let own = match row {
        TypeRow::Choice(parts) => return any_meets(table, a, parts.as_slice(), b),
        TypeRow::Tagged { class, number, .. } => {
            return opens(table, b, *class, *number as u64);
        }
        TypeRow::Any => return true,
        TypeRow::Boolean => 1,
        TypeRow::Integer { .. } => 2,
        TypeRow::BitString => 3,
        TypeRow::OctetString { .. } => 4,
        TypeRow::Null => 5,
        TypeRow::ObjectId => 6,
        TypeRow::Enumerated(_) => 10,
        TypeRow::Text(kind) => text_number(*kind),
        TypeRow::Sequence(_) | TypeRow::SequenceOf(_) => 16,
        TypeRow::Set(_) | TypeRow::SetOf(_) => 17,
    };
    opens(table, b, Class::Universal, own as u64)
}

#[cycle(meeting)]
fn any_meets(table: &TypeTable, a: TypeId, parts: &[Part], b: TypeId) -> bool
    requires below { AllByRecursion (λ m. m < a.0) (rows_of_parts parts.now) }
    requires within { a.0 ≤ length table.now }
    requires b { b.0 < length table.now }
    ensures { result ≡ list_any (λ o. list_any (meets o) (openings table.now b.0))
        (flat_map (λ p. openings table.now p.inner.0) parts.now) }
{
    for part in parts {
        if meet(table, part.inner, b) {
            return true;
        }
    }
    false
}
