//! Faults that the words of an assignment show by themselves, and by what its names are assigned.
#![tactic(auto, using(crate::proofs::LeastLaws::least_append, crate::proofs::LeastLaws::least_two))]

ghost use Rattle.std.specs.Prelude.{◌≡◌, ◌++◌, [], not, is_some, OnOk};
ghost use Rattle.operation_notation.specs.TreeView.{plain_of, parts_of as trees};
ghost use Rattle.module_faults.specs.Least.{least_from};
ghost use Rattle.module_faults.specs.Locals.{range_faults, size_faults, tag_faults, end_faults, item_faults, part_faults, name_faults, in_parts, plain_faults, type_faults, use_faults};

use crate::kind::TableKind;
use crate::least::Least;
use crate::names::Names;
use crate::seen_names::{SeenNames, see_number};
use crate::token_tests::{is_bad_range, is_bad_size, is_bad_tag};
use indexmap::IndexSet;
use notation_tokens::Located;
use operation_notation::{ItemText, PartText, PlainText, RangeText, TagText, TypeText, UseText};
use osi_base::NoMemory;
use std::alloc::Global;

/// How many levels deep types stand in one another at most.
pub(crate) const MOST_LEVELS: u32 = 256;

/// A range whose low end is above its high end.
#[tactic(auto, unfolding(crate::specs::Least::least_from))]
fn range(range: &Option<RangeText>, least: &mut Least)
    ensures { least.new.found ≡ least_from least.old.found (range_faults range.now) }
{
    if let Some(range) = range {
        least.note_if(
            is_bad_range(range),
            range.line,
            range.column,
            TableKind::BadRange,
        );
    }
}

/// A size that doesn't begin with 0, or passes 32 bits.
#[tactic(auto, unfolding(crate::specs::Least::least_from))]
fn size(size: &Option<RangeText>, least: &mut Least)
    ensures { least.new.found ≡ least_from least.old.found (size_faults size.now) }
{
    if let Some(size) = size {
        least.note_if(
            is_bad_size(size),
            size.line,
            size.column,
            TableKind::BadRange,
        );
    }
}

/// The tag UNIVERSAL 0 of a type whose first token stands at this line and column.
#[tactic(auto, unfolding(crate::specs::Least::least_from))]
fn tag(line: u32, column: u32, tag: &Option<TagText>, least: &mut Least)
    ensures { least.new.found ≡ least_from least.old.found (tag_faults line column tag.now) }
{
    if let Some(tag) = tag {
        least.note_if(is_bad_tag(tag), line, column, TableKind::BadRange);
    }
}

/// The alternative behind so many others.
fn end(count: u32, parts: &[PartText], least: &mut Least)
    ensures { least.new.found ≡ least_from least.old.found (end_faults count (trees parts.now)) }
{
    let mut left = count;
    let mut rest = parts;
    while let [part, more @ ..] = rest {
        if left == 0 {
            least.note_if(true, part.name.line, part.name.column, TableKind::BadRange);
            return;
        }
        left -= 1;
        rest = more;
    }
}

/// Items whose name or number stands before.
fn items(alloc: Global, items: &[ItemText], least: &mut Least) -> Result<(), NoMemory>
    ensures { OnOk result (least.new.found ≡ least_from least.old.found
        (item_faults [] [] items.now)) }
{
    let mut names = SeenNames::new(alloc);
    let mut numbers = IndexSet::new(alloc);
    let mut rest = items;
    while let [item, more @ ..] = rest {
        let is_old_name = names.see(&item.name.text)?;
        let is_old_number = see_number(&mut numbers, item)?;
        least.note_if(
            is_old_name || is_old_number,
            item.name.line,
            item.name.column,
            TableKind::DoubleName,
        );
        rest = more;
    }
    Ok(())
}

/// Parts whose name stands before.
fn part_names(alloc: Global, parts: &[PartText], least: &mut Least) -> Result<(), NoMemory>
    ensures { OnOk result (least.new.found ≡ least_from least.old.found
        (part_faults [] (trees parts.now))) }
{
    let mut names = SeenNames::new(alloc);
    let mut rest = parts;
    while let [part, more @ ..] = rest {
        let is_old = names.see(&part.name.text)?;
        least.note_if(
            is_old,
            part.name.line,
            part.name.column,
            TableKind::DoubleName,
        );
        rest = more;
    }
    Ok(())
}

/// A Name that is assigned no type.
fn type_name(names: &Names<'_>, name: &Located, least: &mut Least)
    ensures { least.new.found ≡ least_from least.old.found (name_faults names.now name.now) }
{
    let is_unknown = names.type_place(&name.text).is_none();
    least.note_if(is_unknown, name.line, name.column, TableKind::UnknownName);
}

/// The types of parts.
#[cycle(local)]
fn part_types(
    alloc: Global,
    names: &Names<'_>,
    levels: u32,
    parts: &[PartText],
    least: &mut Least,
) -> Result<(), NoMemory>
    ensures { OnOk result (least.new.found ≡ least_from least.old.found
        (in_parts (type_faults names.now levels) (trees parts.now))) }
{
    let mut rest = parts;
    while let [part, more @ ..] = rest {
        of_type(alloc, names, levels, &part.of, least)?;
        rest = more;
    }
    Ok(())
}

#[cycle(local)]
fn parts(
    alloc: Global,
    names: &Names<'_>,
    levels: u32,
    parts: &[PartText],
    least: &mut Least,
) -> Result<(), NoMemory>
    ensures { OnOk result (least.new.found ≡ least_from least.old.found
        (part_faults [] (trees parts.now)
        ++ in_parts (type_faults names.now levels) (trees parts.now))) }
{
    part_names(alloc, parts, least)?;
    part_types(alloc, names, levels, parts, least)
}

/// Faults of a type without its tag.
#[tactic(auto, unfolding(crate::specs::Least::least_from), using(crate::proofs::LeastLaws::least_append, crate::proofs::LeastLaws::least_two))]
#[cycle(local)]
fn of_plain(
    alloc: Global,
    names: &Names<'_>,
    levels: u32,
    plain: &PlainText,
    least: &mut Least,
) -> Result<(), NoMemory>
    ensures { OnOk result (least.new.found ≡ least_from least.old.found
        (plain_faults names.now (type_faults names.now levels) (plain_of plain.now))) }
{
    match plain {
        PlainText::Integer(ends) => {
            range(ends, least);
            Ok(())
        }
        PlainText::Octets(most) => {
            size(most, least);
            Ok(())
        }
        PlainText::Enumerated(list) => items(alloc, list, least),
        PlainText::SequenceOf(item) => of_type(alloc, names, levels, item, least),
        PlainText::SetOf(item) => of_type(alloc, names, levels, item, least),
        PlainText::Sequence(list) => parts(alloc, names, levels, list, least),
        PlainText::Set(list) => parts(alloc, names, levels, list, least),
        PlainText::Choice(list) => {
            end(256, list, least);
            parts(alloc, names, levels, list, least)
        }
        PlainText::Named(name) => {
            type_name(names, name, least);
            Ok(())
        }
        PlainText::Boolean
        | PlainText::Null
        | PlainText::Bits
        | PlainText::ObjectId
        | PlainText::Text(_) => Ok(()),
    }
}

/// Faults of a type and of those in it, at most so many levels deep.
#[tactic(auto, unfolding(crate::specs::Locals::type_faults), using(crate::proofs::LeastLaws::least_two))]
#[cycle(local)]
pub(crate) fn of_type(
    alloc: Global,
    names: &Names<'_>,
    levels: u32,
    of: &TypeText,
    least: &mut Least,
) -> Result<(), NoMemory>
    ensures { OnOk result (least.new.found ≡ least_from least.old.found
        (type_faults names.now levels of.now)) }
{
    if levels == 0 {
        return Ok(());
    }
    tag(of.line, of.column, &of.tag, least);
    of_plain(alloc, names, levels - 1, &of.plain, least)
}

/// Faults of a type that is carried.
#[tactic(auto, unfolding(crate::specs::Least::least_from), using(crate::proofs::LeastLaws::least_append, crate::proofs::LeastLaws::least_two))]
pub(crate) fn of_use(
    alloc: Global,
    names: &Names<'_>,
    text: &Option<UseText>,
    least: &mut Least,
) -> Result<(), NoMemory>
    ensures { OnOk result (least.new.found ≡ least_from least.old.found
        (use_faults names.now text.now)) }
{
    match text {
        Some(text) => of_type(alloc, names, MOST_LEVELS, &text.of, least),
        None => Ok(()),
    }
}
