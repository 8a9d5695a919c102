//! How deep a row nests, and which rows it names.

ghost use Rattle.std.specs.Prelude.{◌≡◌, ◌+◌, ◌∷◌, [], ◌<◌, length, slice_index};
ghost use Rattle.std.specs.List.{AllByRecursion};
ghost use Rattle.asn1_types.specs.Rows.{nesting_by, greatest, names_of, rows_of_parts};
ghost use Rattle.asn1_types.specs.Table.{first_from};

use crate::row::{Part, TypeRow};

/// The first row that a row names and that isn't among the first `count`.
pub(crate) fn first_missing(count: usize, row: &TypeRow) -> Option<u32>
    ensures { result ≡ first_from count (names_of row.now) }
{
    match row {
        TypeRow::Sequence(parts) => missing_part(count, parts.as_slice()),
        TypeRow::Set(parts) => missing_part(count, parts.as_slice()),
        TypeRow::Choice(parts) => missing_part(count, parts.as_slice()),
        TypeRow::SequenceOf(inner) | TypeRow::SetOf(inner) => missing(count, inner.0),
        TypeRow::Tagged { inner, .. } => missing(count, inner.0),
        _ => None,
    }
}

fn missing(count: usize, row: u32) -> Option<u32>
    ensures { result ≡ first_from count (row ∷ []) }
{
    if (row as usize) < count {
        None
    } else {
        Some(row)
    }
}

fn missing_part(count: usize, parts: &[Part]) -> Option<u32>
    ensures { result ≡ first_from count (rows_of_parts parts.now) }
{
    for part in parts {
        if part.inner.0 as usize >= count {
            return Some(part.inner.0);
        }
    }
    None
}

/// How deep a row nests, given how deep those before it do.
pub(crate) fn nesting_of(nestings: &[u32], row: &TypeRow) -> u64
    requires { AllByRecursion (λ m. m < length nestings.now) (names_of row.now) }
    ensures { result ≡ nesting_by (λ n. slice_index nestings.now n) row.now }
{
    let inner = match row {
        TypeRow::Sequence(parts) => greatest_part(nestings, parts.as_slice()),
        TypeRow::Set(parts) => greatest_part(nestings, parts.as_slice()),
        TypeRow::Choice(parts) => greatest_part(nestings, parts.as_slice()),
        TypeRow::SequenceOf(inner) | TypeRow::SetOf(inner) => nestings[inner.0 as usize],
        TypeRow::Tagged { inner, .. } => nestings[inner.0 as usize],
        _ => 0,
    };
    1 + inner as u64
}

fn greatest_part(nestings: &[u32], parts: &[Part]) -> u32
    requires { AllByRecursion (λ m. m < length nestings.now) (rows_of_parts parts.now) }
    ensures { result ≡ greatest (λ n. slice_index nestings.now n) (rows_of_parts parts.now) }
{
    let mut most = 0;
    for part in parts {
        most = nestings[part.inner.0 as usize].max(most);
    }
    most
}
