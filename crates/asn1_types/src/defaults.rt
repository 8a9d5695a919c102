//! Parts with a default (X.680 25.9), and which defaults fit which types.

ghost use Rattle.std.specs.Prelude.{◌≡◌, ◌<◌, ◌≤◌, Some, length};
ghost use Rattle.std.specs.List.{list_any, AllByRecursion};
ghost use Rattle.asn1_types.specs.Rows.{names_of, rows_of_parts};
ghost use Rattle.asn1_types.specs.Table.{IsRowOf};
ghost use Rattle.asn1_types.specs.Defaults.{may_be_absent, is_named, is_default, default_by, takes_default, is_bad_part, is_bad_alternative, has_bad_default};

use crate::row::{Part, TypeId, TypeRow};
use crate::table::TypeTable;
use crate::text::is_item;
use crate::value::{Node, Val};

/// Whether a part is optional or has a default, and so may be absent.
#[inline(always)]
pub fn may_be_absent(part: &Part) -> bool
    ensures { result ≡ may_be_absent part.now }
{
    part.optional || part.default.is_some()
}

/// Whether a value is the one that a default names.
fn is_named(default: i64, value: &Val) -> bool
    ensures { result ≡ is_named default value.now }
{
    match &value.node {
        Node::Bool(true) => default == 1,
        Node::Bool(false) => default == 0,
        Node::Int(number) => default == *number,
        _ => false,
    }
}

/// Whether a value is the part's default.
#[inline(always)]
pub fn has_default_value(part: &Part, value: &Val) -> bool
    ensures { result ≡ is_default part.now.default value.now }
{
    match part.default {
        Some(default) => is_named(default, value),
        None => false,
    }
}

/// Whether a row is a BOOLEAN, INTEGER or ENUMERATED, or one under tags, that this default fits.
#[cycle(defaults)]
fn takes_default(table: &TypeTable, of: TypeId, default: i64) -> bool
    requires { of.0 < length table.now }
    ensures { result ≡ takes_default table.now of.0 default }
{
    row_takes_default(table, of, table.row(of), default)
}

#[cycle(defaults)]
fn row_takes_default(table: &TypeTable, of: TypeId, row: &TypeRow, default: i64) -> bool
    requires row { IsRowOf table.now of.0 row.now }
    ensures { result ≡ default_by (takes_default table.now) row.now default }
{
    match row {
        TypeRow::Boolean => default == 0 || default == 1,
        TypeRow::Integer { low, high } => *low <= default && default <= *high,
        TypeRow::Enumerated(items) => is_item(items.as_slice(), default),
        TypeRow::Tagged { inner, .. } => takes_default(table, *inner, default),
        _ => false,
    }
}

fn is_bad_part(table: &TypeTable, part: &Part) -> bool
    requires { part.now.inner.0 < length table.now }
    ensures { result ≡ is_bad_part (takes_default table.now) part.now }
{
    match part.default {
        Some(default) => part.optional || !takes_default(table, part.inner, default),
        None => false,
    }
}

fn has_bad_part(table: &TypeTable, parts: &[Part]) -> bool
    requires { AllByRecursion (λ m. m < length table.now) (rows_of_parts parts.now) }
    ensures { result ≡ list_any (is_bad_part (takes_default table.now)) parts.now }
{
    for part in parts {
        if is_bad_part(table, part) {
            return true;
        }
    }
    false
}

fn has_bad_alternative(parts: &[Part]) -> bool
    ensures { result ≡ list_any is_bad_alternative parts.now }
{
    for part in parts {
        if part.default.is_some() {
            return true;
        }
    }
    false
}

/// Whether a part with a default is optional too or an alternative, or its default doesn't fit.
pub(crate) fn has_bad_default(table: &TypeTable, row: &TypeRow) -> bool
    requires { AllByRecursion (λ m. m < length table.now) (names_of row.now) }
    ensures { result ≡ has_bad_default (takes_default table.now) row.now }
{
    match row {
        TypeRow::Sequence(parts) => has_bad_part(table, parts.as_slice()),
        TypeRow::Set(parts) => has_bad_part(table, parts.as_slice()),
        TypeRow::Choice(parts) => has_bad_alternative(parts.as_slice()),
        _ => false,
    }
}
