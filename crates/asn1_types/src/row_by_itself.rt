//! What is wrong with a row whatever stands before it: bad ranges, and names that stand twice.

ghost use Rattle.std.specs.Prelude.{◌≡◌, ◌↔◌, ℕ, IsTrue, length};
ghost use Rattle.std.specs.List.{list_any};
ghost use Rattle.asn1_types.specs.Table.{is_bad_range, same_name, items_agree, parts_agree, agrees_later, is_double_name};

use crate::opening::is_no_tag;
use crate::row::{Item, Part, TypeRow};
use osi_base::Name;

/// Whether a range is empty, there is no item or alternative or too many, or the tag is none.
pub(crate) fn is_bad_range(row: &TypeRow) -> bool
    ensures { result ≡ is_bad_range row.now }
{
    match row {
        TypeRow::Integer { low, high } => *high < *low,
        TypeRow::Enumerated(items) => items.len() == 0,
        TypeRow::Choice(parts) => parts.len() == 0 || 256 < parts.len(),
        TypeRow::Tagged { class, number, .. } => is_no_tag(*class, *number as u64),
        _ => false,
    }
}

/// Whether two parts or items have one name, or two items one number.
pub(crate) fn is_double_name(row: &TypeRow) -> bool
    ensures { result ≡ is_double_name row.now }
{
    match row {
        TypeRow::Enumerated(items) => items_repeat(items.as_slice()),
        TypeRow::Sequence(parts) | TypeRow::Set(parts) | TypeRow::Choice(parts) => {
            parts_repeat(parts.as_slice())
        }
        _ => false,
    }
}

fn same_name(a: &Name, b: &Name) -> bool
    ensures { result ≡ same_name a.now b.now }
{
    a.is(b)
}

fn items_agree(a: &Item, b: &Item) -> bool
    ensures { result ≡ items_agree a.now b.now }
{
    same_name(&a.name, &b.name) || a.number == b.number
}

fn items_repeat(items: &[Item]) -> bool
    ensures { result ≡ agrees_later items_agree items.now }
{
    for (index, item) in items.iter().enumerate() {
        if item_recurs(item, &items[index + 1..]) {
            return true;
        }
    }
    false
}

fn item_recurs(item: &Item, others: &[Item]) -> bool
    ensures { result ≡ list_any (items_agree item.now) others.now }
{
    for other in others {
        if items_agree(item, other) {
            return true;
        }
    }
    false
}

fn parts_repeat(parts: &[Part]) -> bool
    ensures { result ≡ agrees_later parts_agree parts.now }
{
    for (index, part) in parts.iter().enumerate() {
        if part_recurs(part, &parts[index + 1..]) {
            return true;
        }
    }
    false
}

fn part_recurs(part: &Part, others: &[Part]) -> bool
    ensures { result ≡ list_any (parts_agree part.now) others.now }
{
    for other in others {
        if same_name(&part.name, &other.name) {
            return true;
        }
    }
    false
}
