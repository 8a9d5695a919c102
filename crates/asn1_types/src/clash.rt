//! Whether tags tell parts apart.

ghost use Rattle.std.specs.Prelude.{◌≡◌, ◌<◌, length};
ghost use Rattle.std.specs.List.{list_any, AllByRecursion};
ghost use Rattle.asn1_types.specs.Rows.{openings, names_of, rows_of_parts};
ghost use Rattle.asn1_types.specs.Table.{clash, clashes_in_run, clashes_in_sequence, agrees_later, has_clash};

use crate::defaults::may_be_absent;
use crate::opening::meet;
use crate::row::{Part, TypeRow};
use crate::table::TypeTable;

/// Whether tags fail to tell the parts of a row apart.
pub(crate) fn has_clash(table: &TypeTable, row: &TypeRow) -> bool
    requires { AllByRecursion (λ m. m < length table.now) (names_of row.now) }
    ensures { result ≡ has_clash (openings table.now) row.now }
{
    match row {
        TypeRow::Sequence(parts) => clashes_in_sequence(table, parts.as_slice()),
        TypeRow::Set(parts) => clashes_later(table, parts.as_slice()),
        TypeRow::Choice(parts) => clashes_later(table, parts.as_slice()),
        _ => false,
    }
}

fn clashes_in_sequence(table: &TypeTable, parts: &[Part]) -> bool
    requires { AllByRecursion (λ m. m < length table.now) (rows_of_parts parts.now) }
    ensures { result ≡ clashes_in_sequence (clash (openings table.now)) parts.now }
{
    for (index, part) in parts.iter().enumerate() {
        if may_be_absent(part) && clashes_in_run(table, part, &parts[index + 1..]) {
            return true;
        }
    }
    false
}

fn clashes_in_run(table: &TypeTable, part: &Part, others: &[Part]) -> bool
    requires part { part.now.inner.0 < length table.now }
    requires others { AllByRecursion (λ m. m < length table.now) (rows_of_parts others.now) }
    ensures { result ≡ clashes_in_run (clash (openings table.now)) part.now others.now }
{
    for other in others {
        if meet(table, part.inner, other.inner) {
            return true;
        }
        if !may_be_absent(other) {
            return false;
        }
    }
    false
}

fn clashes_later(table: &TypeTable, parts: &[Part]) -> bool
    requires { AllByRecursion (λ m. m < length table.now) (rows_of_parts parts.now) }
    ensures { result ≡ agrees_later (clash (openings table.now)) parts.now }
{
    for (index, part) in parts.iter().enumerate() {
        if clashes_with(table, part, &parts[index + 1..]) {
            return true;
        }
    }
    false
}

fn clashes_with(table: &TypeTable, part: &Part, others: &[Part]) -> bool
    requires part { part.now.inner.0 < length table.now }
    requires others { AllByRecursion (λ m. m < length table.now) (rows_of_parts others.now) }
    ensures { result ≡ list_any (clash (openings table.now) part.now) others.now }
{
    for other in others {
        if meet(table, part.inner, other.inner) {
            return true;
        }
    }
    false
}
