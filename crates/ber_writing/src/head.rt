//! The identifiers that values are written with.

ghost use Rattle.std.specs.Prelude.{◌<◌, ◌++◌, ℕ, Bool, List, Some, None, true, false, slice_get, IfSome};
ghost use Rattle.std.specs.List.{AllByRecursion};
ghost use Rattle.asn1_types.specs.Rows.{rows_of_parts};
ghost use Rattle.asn1_types.specs.Table.{IsRowOf};
ghost use Rattle.asn1_types.specs.Writing.{definite, alternative_written, choice_written, under, write_by, writes};
ghost use Rattle.asn1_types.specs.declared.row.Class.TheVariants.{Universal};
ghost use Rattle.asn1_types.specs.Tags.{tag_or};
ghost use Rattle.ber_writing.specs.Comparing.{Leads, LeadsOr};

use crate::contents::chosen_in;
use asn1_types::{Class, Parts, TypeId, TypeRow, TypeTable, Val, text_number};
use ber_spelling::{Tag, tag_or};

/// The identifier that octets begin with.
#[derive(Clone, Copy)]
pub(crate) struct Head {
    pub tag: Tag,
    pub constructed: bool,
}

/// What octets begin with.
#[derive(Clone, Copy)]
pub(crate) enum Lead {
    /// There are none.
    Nothing,
    Identifier(Head),
    /// That isn't known.
    Unknown,
}

/// What octets begin with of which the first are what is written of a value.
pub(crate) fn lead_of(table: &TypeTable, of: TypeId, value: &Val) -> Lead
    ensures { (behind : List ℕ) → LeadsOr result (writes table.now of.0 None value.now ++ behind) }
{
    match head_of(table, of, None, value) {
        Some(head) => Lead::Identifier(head),
        None => Lead::Unknown,
    }
}

/// The identifier that a value of a row is written with, under another tag if one is given; `None`
/// where nothing is written of it, or the octets of any one value.
#[cycle(heading)]
pub(crate) fn head_of(table: &TypeTable, of: TypeId, tag: Option<Tag>, value: &Val) -> Option<Head>
    ensures { IfSome result (λ head. Leads head (writes table.now of.0 tag value.now)) }
{
    if table.has(of) {
        row_head(table, of, table.row(of), tag, value)
    } else {
        None
    }
}

#[cycle(heading)]
fn row_head(
    table: &TypeTable,
    of: TypeId,
    row: &TypeRow,
    tag: Option<Tag>,
    value: &Val,
) -> Option<Head>
    requires row { IsRowOf table.now of.0 row.now }
    ensures { IfSome result (λ head. Leads head
        (write_by (writes table.now) row.now tag value.now)) }
{
    match row {
        TypeRow::Boolean => Some(universal_head(tag, 1, false)),
        TypeRow::Integer { .. } => Some(universal_head(tag, 2, false)),
        TypeRow::BitString => Some(universal_head(tag, 3, false)),
        TypeRow::OctetString { .. } => Some(universal_head(tag, 4, false)),
        TypeRow::Null => Some(universal_head(tag, 5, false)),
        TypeRow::ObjectId => Some(universal_head(tag, 6, false)),
        TypeRow::Enumerated(_) => Some(universal_head(tag, 10, false)),
        TypeRow::Text(kind) => Some(universal_head(tag, text_number(*kind), false)),
        TypeRow::Sequence(_) => Some(universal_head(tag, 16, true)),
        TypeRow::SequenceOf(_) => Some(universal_head(tag, 16, true)),
        TypeRow::Set(_) => Some(universal_head(tag, 17, true)),
        TypeRow::SetOf(_) => Some(universal_head(tag, 17, true)),
        TypeRow::Choice(alternatives) => choice_head(table, of, alternatives, tag, value),
        TypeRow::Tagged {
            class,
            number,
            explicit,
            inner,
        } => {
            let tag = tag_or(tag, *class, *number);
            if *explicit {
                Some(head_by(tag, true))
            } else {
                head_of(table, *inner, Some(tag), value)
            }
        }
        TypeRow::Any => match tag {
            None => None,
            Some(tag) => Some(head_by(tag, true)),
        },
    }
}

fn universal_head(tag: Option<Tag>, number: u32, constructed: bool) -> Head
    ensures { (contents : List ℕ)
        → Leads result (definite constructed (tag_or tag Universal number) contents) }
{
    head_by(tag_or(tag, Class::Universal, number), constructed)
}

fn head_by(tag: Tag, constructed: bool) -> Head
    ensures { (contents : List ℕ) → Leads result (definite constructed tag contents) }
{
    Head { tag, constructed }
}

#[cycle(heading)]
fn choice_head(
    table: &TypeTable,
    of: TypeId,
    alternatives: &Parts,
    tag: Option<Tag>,
    value: &Val,
) -> Option<Head>
    requires { AllByRecursion (λ m. m < of.0) (rows_of_parts alternatives.now) }
    ensures { IfSome result (λ head. Leads head
        (under (choice_written (λ which. alternative_written (writes table.now)
        (slice_get alternatives.now which))) tag value.now)) }
{
    match tag {
        None => alternative_head(table, of, alternatives, value),
        Some(tag) => Some(head_by(tag, true)),
    }
}

#[cycle(heading)]
fn alternative_head(
    table: &TypeTable,
    of: TypeId,
    alternatives: &Parts,
    value: &Val,
) -> Option<Head>
    requires { AllByRecursion (λ m. m < of.0) (rows_of_parts alternatives.now) }
    ensures { IfSome result (λ head. Leads head
        (choice_written (λ which. alternative_written (writes table.now)
        (slice_get alternatives.now which)) value.now)) }
{
    let (which, inside) = chosen_in(value)?;
    let part = alternatives.get(which as usize)?;
    head_of(table, part.inner, None, inside)
}
