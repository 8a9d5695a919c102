//! Values that are read by their types.

ghost use Rattle.std.specs.Prelude.{◌≡◌, ◌<◌, [], zero, length, None, IfOk, IfSome, slice_set, option_map};
ghost use Rattle.std.specs.List.{AllByRecursion};
ghost use Rattle.asn1_types.specs.Rows.{rows_of_parts};
ghost use Rattle.asn1_types.specs.Table.{IsRowOf};
ghost use Rattle.asn1_types.specs.Rising.{sorted};
ghost use Rattle.asn1_types.specs.Writing.{written};
ghost use Rattle.asn1_types.specs.ValueView.{empty_slots};
ghost use Rattle.value_reading.specs.Found.{found, found_before, listed};
ghost use Rattle.value_reading.specs.Words.{word, behind_word, behind_sign};
ghost use Rattle.value_reading.specs.Typed.{item_named, place_from, place_of, may_stand, part_at, kept_slot, kept_slots, closed_parts, first_part, parts_at, sequence_at, items_at, braced_items, list_at, as_read, named_alternative, choice_at, read_by, read_as, value_at};

use crate::form::read_form;
use crate::value_and_rest::{Items, ValueAndRest};
use crate::word::{
    after_brace, after_comma, after_spaces, behind_sign, behind_word, closed_by, word,
};
use asn1_types::{
    Item, MaybeVals, Node, Part, Parts, TypeId, TypeRow, TypeTable, Val, empty_slots,
    has_default_value,
};
use ber_writing::{fits, in_order};
use osi_base::NoMemory;
use std::alloc::Global;

/// Reads the value that stands first in a text by its type (X.680, the notation for values): the
/// items of an ENUMERATED, the parts of a SEQUENCE or SET and the alternatives of a CHOICE by their
/// names, all else by its form; or `None` where no value stands there that fits the type. Around
/// braces, commas and colons there may be spaces. A part that names its default is read as absent,
/// and the items of a SET OF are put in the order of their DER spellings. What may follow is the
/// caller's matter.
pub fn read_typed<'a>(
    alloc: Global,
    table: &TypeTable,
    of: TypeId,
    text: &'a [u8],
) -> Result<Option<ValueAndRest<'a>>, NoMemory>
    ensures { IfOk result (λ front. found front ≡ value_at table.now of.0 text.now) }
{
    match read_as(alloc, table, of, text)? {
        Some(front) if fits(table, of, &front.value) => Ok(Some(front)),
        _ => Ok(None),
    }
}

#[cycle(reading)]
fn read_as<'a>(
    alloc: Global,
    table: &TypeTable,
    of: TypeId,
    text: &'a [u8],
) -> Result<Option<ValueAndRest<'a>>, NoMemory>
    ensures { IfOk result (λ front. found front ≡ read_as table.now of.0 text.now) }
{
    if table.has(of) {
        read_row(alloc, table, of, table.row(of), text)
    } else {
        Ok(None)
    }
}

#[cycle(reading)]
fn read_row<'a>(
    alloc: Global,
    table: &TypeTable,
    of: TypeId,
    row: &TypeRow,
    text: &'a [u8],
) -> Result<Option<ValueAndRest<'a>>, NoMemory>
    requires row { IsRowOf table.now of.0 row.now }
    ensures { IfOk result (λ front. found front ≡ read_by (written table.now) (read_as table.now)
        row.now text.now) }
{
    match row {
        TypeRow::Enumerated(items) => Ok(read_item(items.as_slice(), text)),
        TypeRow::Sequence(parts) => read_sequence(alloc, table, of, parts, true, text),
        TypeRow::Set(parts) => read_sequence(alloc, table, of, parts, false, text),
        TypeRow::SequenceOf(inner) => read_list(alloc, table, of, *inner, text),
        TypeRow::SetOf(inner) => read_set_of(alloc, table, of, *inner, text),
        TypeRow::Choice(alternatives) => read_choice(alloc, table, of, alternatives, text),
        TypeRow::Tagged { inner, .. } => read_tagged(alloc, table, of, *inner, text),
        TypeRow::Any => Ok(None),
        _ => read_form(alloc, text),
    }
}

/// A type with a tag of its own, which is not written.
#[cycle(reading)]
fn read_tagged<'a>(
    alloc: Global,
    table: &TypeTable,
    of: TypeId,
    inner: TypeId,
    text: &'a [u8],
) -> Result<Option<ValueAndRest<'a>>, NoMemory>
    requires below { inner.0 < of.0 }
    ensures { IfOk result (λ front. found front ≡ read_as table.now inner.0 text.now) }
{
    read_as(alloc, table, inner, text)
}

/// An item of an ENUMERATED.
fn read_item<'a>(items: &[Item], text: &'a [u8]) -> Option<ValueAndRest<'a>>
    ensures { found result ≡ found_before (behind_word text.now) (item_named items.now (word
        text.now)) }
{
    Some(ValueAndRest {
        value: item_named(items, word(text))?,
        rest: behind_word(text),
    })
}

/// The item of this name.
#[tactic(auto, using(crate::proofs::Slots::item_here, crate::proofs::Slots::item_past, crate::proofs::Slots::no_item))]
fn item_named(items: &[Item], name: &[u8]) -> Option<Val>
    ensures { result ≡ item_named items.now name.now }
{
    for item in items {
        if item.name.as_bytes() == name {
            return Some(Val {
                node: Node::Int(item.number),
            });
        }
    }
    None
}

/// The place of the first part of this name.
#[tactic(auto, using(crate::proofs::Slots::place_here, crate::proofs::Slots::place_past, crate::proofs::Slots::no_place))]
fn place_named(parts: &[Part], name: &[u8]) -> Option<usize>
    ensures place { result ≡ place_from zero parts.now name.now }
    ensures within { IfSome result (λ place. place < length parts.now) }
{
    for place in 0..parts.len() {
        if parts[place].name.as_bytes() == name {
            return Some(place);
        }
    }
    None
}

/// The place of the first part of this name, of 32 bits.
fn place_of(parts: &[Part], name: &[u8]) -> Option<u32>
    ensures place { result ≡ place_of parts.now name.now }
    ensures within { IfSome result (λ place. place < length parts.now) }
{
    u32::try_from(place_named(parts, name)?).ok()
}

/// Whether a part may stand here: in a SEQUENCE behind those before it, in a SET unless it was
/// there.
fn may_stand(in_order: bool, least: usize, slots: &[Option<Val>], place: usize) -> bool
    ensures { result ≡ may_stand in_order least slots.now place }
{
    if in_order {
        least <= place
    } else {
        match slots.get(place) {
            Some(slot) => slot.is_none(),
            None => false,
        }
    }
}

/// Puts a part's value into its slot.
fn put_slot(slots: &mut MaybeVals, place: usize, value: Val)
    requires { place < length slots.old.items }
    ensures { slots.new.items ≡ slice_set slots.old.items place (Some value) }
{
    slots[place] = Some(value);
}

/// What stays of a part that was read: nothing where it has its default's value.
fn kept_slot(part: &Part, slot: Option<Val>) -> Option<Val>
    ensures { result ≡ kept_slot part.now slot }
{
    let value = slot?;
    if has_default_value(part, &value) {
        None
    } else {
        Some(value)
    }
}

/// The parts that were read, of which those with their default's value are absent.
fn kept_slots(alloc: Global, parts: &[Part], slots: MaybeVals) -> Result<MaybeVals, NoMemory>
    ensures { IfOk result (λ kept. kept.items ≡ kept_slots parts.now slots.items) }
{
    let mut kept = Vec::new(alloc);
    let mut rest = slots.into_iter();
    for part in parts {
        let Some(slot) = rest.next() else {
            break;
        };
        kept.push(kept_slot(part, slot))?;
    }
    Ok(kept)
}

/// The value of the parts that were read.
fn closed_parts<'a>(
    alloc: Global,
    parts: &Parts,
    slots: MaybeVals,
    rest: &'a [u8],
) -> Result<Option<ValueAndRest<'a>>, NoMemory>
    ensures { IfOk result (λ front. found front ≡ closed_parts parts.now slots.items rest.now) }
{
    let values = kept_slots(alloc, parts.as_slice(), slots)?;
    Ok(Some(ValueAndRest {
        value: Val {
            node: Node::Parts(values),
        },
        rest,
    }))
}

/// The value behind a part's name and one space or more.
#[cycle(reading)]
fn read_part<'a>(
    alloc: Global,
    table: &TypeTable,
    of: TypeId,
    part: &Part,
    text: &'a [u8],
) -> Result<Option<ValueAndRest<'a>>, NoMemory>
    requires below { part.now.inner.0 < of.0 }
    ensures { IfOk result (λ front. found front ≡ part_at (read_as table.now) (Some part.now)
        text.now) }
{
    match text {
        [b' ', rest @ ..] => read_as(alloc, table, part.inner, after_spaces(rest)),
        _ => Ok(None),
    }
}

/// The parts of a SEQUENCE, in the order of the notation, or of a SET.
#[cycle(reading)]
fn read_sequence<'a>(
    alloc: Global,
    table: &TypeTable,
    of: TypeId,
    parts: &Parts,
    in_order: bool,
    text: &'a [u8],
) -> Result<Option<ValueAndRest<'a>>, NoMemory>
    requires below { AllByRecursion (λ m. m < of.0) (rows_of_parts parts.now) }
    ensures { IfOk result (λ front. found front ≡ sequence_at (read_as table.now) in_order
        parts.now text.now) }
{
    let Some(inside) = behind_sign(text, b'{') else {
        return Ok(None);
    };
    let slots = empty_slots(alloc, parts.as_slice())?;
    match closed_by(inside) {
        Some(rest) => closed_parts(alloc, parts, slots, rest),
        None => read_parts(alloc, table, of, parts, in_order, slots, inside),
    }
}

/// The parts inside the braces, of which one at least stands here.
#[cycle(reading)]
#[tactic(auto, using(crate::proofs::Turns::parts_turn, crate::proofs::Turns::parts_over))]
fn read_parts<'a>(
    alloc: Global,
    table: &TypeTable,
    of: TypeId,
    parts: &Parts,
    in_order: bool,
    slots: MaybeVals,
    text: &'a [u8],
) -> Result<Option<ValueAndRest<'a>>, NoMemory>
    requires below { AllByRecursion (λ m. m < of.0) (rows_of_parts parts.now) }
    requires slots { length slots.items ≡ length parts.now }
    ensures { IfOk result (λ front. found front ≡ parts_at (read_as table.now) in_order parts.now
        (length parts.now) slots.items zero text.now) }
{
    let mut slots = slots;
    let mut least = 0;
    let mut here = text;
    for _turn in 0..parts.len() {
        let Some(place) = place_of(parts.as_slice(), word(here)) else {
            return Ok(None);
        };
        let place = place as usize;
        if !may_stand(in_order, least, &slots, place) {
            return Ok(None);
        }
        let Some(part) = parts.get(place) else {
            return Ok(None);
        };
        let Some(front) = read_part(alloc, table, of, part, behind_word(here))? else {
            return Ok(None);
        };
        put_slot(&mut slots, place, front.value);
        least = place + 1;
        let Some(next) = after_comma(front.rest) else {
            return match after_brace(front.rest) {
                Some(rest) => closed_parts(alloc, parts, slots, rest),
                None => Ok(None),
            };
        };
        here = next;
    }
    Ok(None)
}

/// The items of a list, in the order of the text.
#[cycle(reading)]
fn read_items<'a>(
    alloc: Global,
    table: &TypeTable,
    of: TypeId,
    inner: TypeId,
    text: &'a [u8],
) -> Result<Option<Items<'a>>, NoMemory>
    requires below { inner.0 < of.0 }
    ensures { IfOk result (λ items. listed items ≡ braced_items (read_as table.now inner.0)
        (behind_sign 123 text.now)) }
{
    let Some(inside) = behind_sign(text, b'{') else {
        return Ok(None);
    };
    match closed_by(inside) {
        Some(rest) => Ok(Some(Items {
            values: Vec::new(alloc),
            rest,
        })),
        None => read_more_items(alloc, table, of, inner, inside),
    }
}

/// The items inside the braces, of which one at least stands here.
#[cycle(reading)]
#[tactic(auto, using(crate::proofs::Turns::items_turn, crate::proofs::Turns::items_over))]
fn read_more_items<'a>(
    alloc: Global,
    table: &TypeTable,
    of: TypeId,
    inner: TypeId,
    text: &'a [u8],
) -> Result<Option<Items<'a>>, NoMemory>
    requires below { inner.0 < of.0 }
    ensures { IfOk result (λ items. listed items ≡ items_at (read_as table.now inner.0) (length
        text.now) [] text.now) }
{
    let mut values = Vec::new(alloc);
    let mut here = text;
    for _turn in 0..text.len() {
        let Some(front) = read_as(alloc, table, inner, here)? else {
            return Ok(None);
        };
        values.push(front.value)?;
        let Some(next) = after_comma(front.rest) else {
            return match after_brace(front.rest) {
                Some(rest) => Ok(Some(Items { values, rest })),
                None => Ok(None),
            };
        };
        here = next;
    }
    Ok(None)
}

/// A SEQUENCE OF.
#[cycle(reading)]
fn read_list<'a>(
    alloc: Global,
    table: &TypeTable,
    of: TypeId,
    inner: TypeId,
    text: &'a [u8],
) -> Result<Option<ValueAndRest<'a>>, NoMemory>
    requires below { inner.0 < of.0 }
    ensures { IfOk result (λ front. found front ≡ list_at (read_as table.now inner.0) as_read
        text.now) }
{
    match read_items(alloc, table, of, inner, text)? {
        Some(Items { values, rest }) => Ok(Some(ValueAndRest {
            value: Val {
                node: Node::List(values),
            },
            rest,
        })),
        None => Ok(None),
    }
}

/// A SET OF, whose items are put in order.
#[cycle(reading)]
fn read_set_of<'a>(
    alloc: Global,
    table: &TypeTable,
    of: TypeId,
    inner: TypeId,
    text: &'a [u8],
) -> Result<Option<ValueAndRest<'a>>, NoMemory>
    requires below { inner.0 < of.0 }
    ensures { IfOk result (λ front. found front ≡ list_at (read_as table.now inner.0) (sorted
        (written table.now inner.0)) text.now) }
{
    match read_items(alloc, table, of, inner, text)? {
        Some(Items { values, rest }) => Ok(Some(ValueAndRest {
            value: Val {
                node: Node::List(in_order(alloc, table, inner, values)?),
            },
            rest,
        })),
        None => Ok(None),
    }
}

/// The alternative of a CHOICE: its name, a colon and its value.
#[cycle(reading)]
fn read_choice<'a>(
    alloc: Global,
    table: &TypeTable,
    of: TypeId,
    alternatives: &Parts,
    text: &'a [u8],
) -> Result<Option<ValueAndRest<'a>>, NoMemory>
    requires below { AllByRecursion (λ m. m < of.0) (rows_of_parts alternatives.now) }
    ensures { IfOk result (λ front. found front ≡ choice_at (read_as table.now) alternatives.now
        text.now) }
{
    let Some(which) = place_of(alternatives.as_slice(), word(text)) else {
        return Ok(None);
    };
    let Some(part) = alternatives.get(which as usize) else {
        return Ok(None);
    };
    let Some(inside) = behind_sign(after_spaces(behind_word(text)), b':') else {
        return Ok(None);
    };
    match read_as(alloc, table, part.inner, inside)? {
        Some(ValueAndRest { value, rest }) => Ok(Some(ValueAndRest {
            value: Val {
                node: Node::Chosen {
                    which,
                    value: Box::new(alloc, value)?,
                },
            },
            rest,
        })),
        None => Ok(None),
    }
}
