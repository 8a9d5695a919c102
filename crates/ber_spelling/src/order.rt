//! The order of tags (X.680 8.6).

ghost use Rattle.std.specs.Prelude.{◌≡◌, ◌<◌, ◌≤◌, ◌^◌, None, length, slice_get};
ghost use Rattle.std.specs.List.{AllByRecursion};
ghost use Rattle.asn1_types.specs.Rows.{rows_of_parts};
ghost use Rattle.asn1_types.specs.Table.{IsRowOf};
ghost use Rattle.asn1_types.specs.Writing.{alternative_written, choice_written, any_written, write_by, writes};
ghost use Rattle.asn1_types.specs.Tags.{capped, rank, front_number, front_rank};

use crate::fields::class_of;
use asn1_types::{Class, Node, Parts, TypeId, TypeRow, TypeTable, Val, text_number};

/// More than any rank.
pub const RANKS: u64 = 0x8_0000_0000;

/// Where a tag stands among all tags, by class and then by number; numbers past 32 bits are one.
pub fn tag_rank(class: Class, number: u64) -> u64
    ensures value { result ≡ rank class number }
    ensures below { result < 2 ^ 35 }
{
    class as u64 * 0x2_0000_0000 + number.min(0x1_0000_0000)
}

/// The number that digits of seven bits begin with (X.690 8.1.2.4.2).
fn front_number(digits: &[u8]) -> u64
    ensures { result ≡ front_number 0 digits.now }
{
    let mut number: u64 = 0;
    for digit in digits {
        let low = (*digit & 0x7f) as u64;
        number = (128 * number + low).min(0x1_0000_0000);
        if *digit < 128 {
            return number;
        }
    }
    number
}

/// The rank of the tag that octets begin with; 0 for none.
#[tactic(auto, unfolding(asn1_types::specs::Tags::front_rank))]
pub(crate) fn front_rank(octets: &[u8]) -> u64
    ensures { result ≡ front_rank octets.now }
{
    match octets {
        [] => 0,
        [first, rest @ ..] => {
            if *first % 32 == 31 {
                tag_rank(class_of(*first), front_number(rest))
            } else {
                tag_rank(class_of(*first), (*first % 32) as u64)
            }
        }
    }
}

/// The rank of the tag that a value of this row is written with.
#[cycle(ranking)]
pub fn rank_of(table: &TypeTable, of: TypeId, value: &Val) -> u64
    requires { of.0 < length table.now }
    ensures { result ≡ front_rank (writes table.now of.0 None value.now) }
{
    rank_by(table, of, table.row(of), value)
}

#[cycle(ranking)]
fn rank_by(table: &TypeTable, of: TypeId, row: &TypeRow, value: &Val) -> u64
    requires row { IsRowOf table.now of.0 row.now }
    ensures { result ≡ front_rank (write_by (writes table.now) row.now None value.now) }
{
    match row {
        TypeRow::Boolean => tag_rank(Class::Universal, 1),
        TypeRow::Integer { .. } => tag_rank(Class::Universal, 2),
        TypeRow::BitString => tag_rank(Class::Universal, 3),
        TypeRow::OctetString { .. } => tag_rank(Class::Universal, 4),
        TypeRow::Null => tag_rank(Class::Universal, 5),
        TypeRow::ObjectId => tag_rank(Class::Universal, 6),
        TypeRow::Enumerated(_) => tag_rank(Class::Universal, 10),
        TypeRow::Text(kind) => tag_rank(Class::Universal, text_number(*kind) as u64),
        TypeRow::Sequence(_) => tag_rank(Class::Universal, 16),
        TypeRow::SequenceOf(_) => tag_rank(Class::Universal, 16),
        TypeRow::Set(_) => tag_rank(Class::Universal, 17),
        TypeRow::SetOf(_) => tag_rank(Class::Universal, 17),
        TypeRow::Choice(alternatives) => rank_of_chosen(table, of, alternatives, value),
        TypeRow::Tagged { class, number, .. } => tag_rank(*class, *number as u64),
        TypeRow::Any => rank_of_any(value),
    }
}

/// In an untagged CHOICE, the rank of the chosen alternative's tag.
#[cycle(ranking)]
fn rank_of_chosen(table: &TypeTable, of: TypeId, alternatives: &Parts, value: &Val) -> u64
    requires below { AllByRecursion (λ m. m < of.0) (rows_of_parts alternatives.now) }
    requires row { of.0 ≤ length table.now }
    ensures { result ≡ front_rank (choice_written (λ which. alternative_written (writes table.now)
        (slice_get alternatives.now which)) value.now) }
{
    match &value.node {
        Node::Chosen { which, value } => match alternatives.get(*which as usize) {
            Some(part) => rank_of(table, part.inner, value),
            None => front_rank(&[]),
        },
        _ => front_rank(&[]),
    }
}

fn rank_of_any(value: &Val) -> u64
    ensures { result ≡ front_rank (any_written value.now) }
{
    match &value.node {
        Node::Any(octets) => front_rank(octets.as_slice()),
        _ => front_rank(&[]),
    }
}
