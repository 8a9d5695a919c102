//! The types that each assignment names, as lists of places.

ghost use Rattle.std.specs.Prelude.{◌≡◌, ◌++◌, length, IfOk, OnOk};
ghost use Rattle.osi_base.specs.Limits.{most_type_levels};
ghost use Rattle.operation_notation.specs.TreeView.{plain_of, parts_of as trees};
ghost use Rattle.module_faults.specs.Names.{type_place};
ghost use Rattle.module_faults.specs.Recursion.{listed, parts_uses, plain_uses, type_uses, use_uses, body_uses, bodies_uses, list_at};

use crate::locals::MOST_LEVELS;
use crate::names::Names;
use operation_notation::{Assigned, PartText, PlainText, TypeText, UseText};
use osi_base::{Name, NoMemory};
use std::alloc::Global;
use std::marker::Model;

/// The places of the types that each assignment names.
#[derive(Drop)]
pub(crate) struct UseLists {
    lists: Vec<Vec<u32>>,
}

impl Model for UseLists {
    ghost use Rattle.std.specs.Prelude.{ℕ, List, map};

    ghost Value = { List (List ℕ) };

    ghost view = { λ s. map (λ l. l.items) s.lists.items };
}

impl UseLists {
    /// How many assignments there are.
    pub fn len(&self) -> usize
        ensures { result ≡ length self.now }
    {
        self.lists.len()
    }

    /// The places of the types that the assignment at a place names.
    pub fn at(&self, place: usize) -> &[u32]
        ensures { result.now ≡ list_at self.now place }
    {
        match self.lists.get(place) {
            Some(list) => list.as_slice(),
            None => &[],
        }
    }
}

/// The type of a name, if it is assigned one.
fn of_name(names: &Names<'_>, name: &Name, used: &mut Vec<u32>) -> Result<(), NoMemory>
    ensures { OnOk result (used.new.items ≡ used.old.items
        ++ listed (type_place names.now name.now)) }
{
    if let Some(place) = names.type_place(name) {
        used.push(place)?;
    }
    Ok(())
}

#[cycle(naming)]
fn of_parts(
    names: &Names<'_>,
    levels: u32,
    parts: &[PartText],
    used: &mut Vec<u32>,
) -> Result<(), NoMemory>
    ensures { OnOk result (used.new.items ≡ used.old.items
        ++ parts_uses (type_uses names.now levels) (trees parts.now)) }
{
    let mut rest = parts;
    while let [part, more @ ..] = rest {
        of_type(names, levels, &part.of, used)?;
        rest = more;
    }
    Ok(())
}

#[cycle(naming)]
fn of_plain(
    names: &Names<'_>,
    levels: u32,
    plain: &PlainText,
    used: &mut Vec<u32>,
) -> Result<(), NoMemory>
    ensures { OnOk result (used.new.items ≡ used.old.items
        ++ plain_uses names.now (type_uses names.now levels) (plain_of plain.now)) }
{
    match plain {
        PlainText::SequenceOf(item) => of_type(names, levels, item, used),
        PlainText::SetOf(item) => of_type(names, levels, item, used),
        PlainText::Sequence(parts) => of_parts(names, levels, parts, used),
        PlainText::Set(parts) => of_parts(names, levels, parts, used),
        PlainText::Choice(parts) => of_parts(names, levels, parts, used),
        PlainText::Named(name) => of_name(names, &name.text, used),
        _ => Ok(()),
    }
}

/// The places of the types that a type names, at most so many levels deep.
#[tactic(auto, unfolding(crate::specs::Recursion::type_uses))]
#[cycle(naming)]
fn of_type(
    names: &Names<'_>,
    levels: u32,
    of: &TypeText,
    used: &mut Vec<u32>,
) -> Result<(), NoMemory>
    ensures { OnOk result (used.new.items ≡ used.old.items
        ++ type_uses names.now levels of.now) }
{
    if levels == 0 {
        return Ok(());
    }
    of_plain(names, levels - 1, &of.plain, used)
}

fn of_use(names: &Names<'_>, text: &Option<UseText>, used: &mut Vec<u32>) -> Result<(), NoMemory>
    ensures { OnOk result (used.new.items ≡ used.old.items ++ use_uses names.now text.now) }
{
    match text {
        Some(text) => of_type(names, MOST_LEVELS, &text.of, used),
        None => Ok(()),
    }
}

/// The places of the types that a type names.
pub(crate) fn type_uses(
    alloc: Global,
    names: &Names<'_>,
    of: &TypeText,
) -> Result<Vec<u32>, NoMemory>
    ensures { IfOk result (λ used. used.items ≡ type_uses names.now most_type_levels of.now) }
{
    let mut used = Vec::new(alloc);
    of_type(names, MOST_LEVELS, of, &mut used)?;
    Ok(used)
}

/// The places of the types that are named in what is assigned.
pub(crate) fn body_uses(
    alloc: Global,
    names: &Names<'_>,
    body: &Assigned,
) -> Result<Vec<u32>, NoMemory>
    ensures { IfOk result (λ used. used.items ≡ body_uses names.now body.now) }
{
    let mut used = Vec::new(alloc);
    match body {
        Assigned::Typed(of) => of_type(names, MOST_LEVELS, of, &mut used)?,
        Assigned::Operation(text) => {
            of_use(names, &text.argument, &mut used)?;
            of_use(names, &text.result, &mut used)?;
        }
        Assigned::Error(text) => of_use(names, &text.parameter, &mut used)?,
    }
    Ok(used)
}

/// The places of the types that the assignments of a module name.
pub(crate) fn all_uses(alloc: Global, names: &Names<'_>) -> Result<UseLists, NoMemory>
    ensures { IfOk result (λ lists. lists ≡ bodies_uses names.now names.now) }
{
    let mut lists = Vec::new(alloc);
    let mut rest = names.assignments();
    while let [assignment, more @ ..] = rest {
        lists.push(body_uses(alloc, names, &assignment.body)?)?;
        rest = more;
    }
    Ok(UseLists { lists })
}
