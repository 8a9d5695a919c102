//! What the names of a module stand for.

ghost use Rattle.std.specs.Prelude.{◌≡◌, ◌≤◌, ◌^◌, IfErr, IfOk, OnOk, Some};
ghost use Rattle.std.specs.Option.{option_copied};
ghost use Rattle.std.specs.Str.{bytes_eq};
ghost use Rattle.indexmap.specs.IndexMap.{get_by};
ghost use Rattle.module_faults.specs.Names.{find, type_at, type_place, assigned, IsAdded, AreFound};

use indexmap::IndexMap;
use operation_notation::{Assigned, Assignment, TypeText};
use osi_base::{Name, NoMemory};
use std::alloc::Global;
use std::marker::Model;

/// The assignments of a module, by their places and names.
#[derive(Drop)]
pub(crate) struct Names<'m> {
    assignments: &'m [Assignment],
    places: IndexMap<&'m str, u32>,
}

impl<'m> Model for Names<'m> {
    ghost use Rattle.std.specs.Prelude.{List};
    ghost use Rattle.operation_notation.specs.declared.module.Assignment.{Assignment};
    ghost use Rattle.module_faults.specs.Names.{AreFound};

    ghost Value = { List Assignment };

    ghost use Rattle.std.specs.Coded.{codes};
    ghost use Rattle.operation_notation.specs.TreeCode.{coded_type};

    ghost coded = { Prim.hlevel (codes, coded_type) };

    ghost view = { λ s. s.assignments.now };

    ghost invariant = { λ s. AreFound s.assignments.now s.places };
}

/// An index as a place; there are no more places than 32 bits can count.
pub(crate) fn place_of(index: usize) -> Result<u32, NoMemory>
    ensures place { IfOk result (λ place. place ≡ index) }
    ensures refused { IfErr result (λ _. 2 ^ 32 ≤ index) }
{
    match u32::try_from(index) {
        Ok(place) => Ok(place),
        Err(_) => Err(NoMemory),
    }
}

/// Puts the place of a name that has none yet.
fn add_place<'m>(
    places: &mut IndexMap<&'m str, u32>,
    name: &'m str,
    place: u32,
) -> Result<(), NoMemory>
    ensures { OnOk result (IsAdded places.old places.new name.now place) }
{
    if places.contains_key(name) {
        return Ok(());
    }
    places.insert(name, place)?;
    Ok(())
}

/// The places of names, each that of its first assignment.
pub fn name_places(
    alloc: Global,
    assignments: &[Assignment],
) -> Result<IndexMap<&str, u32>, NoMemory>
    ensures { IfOk result (λ places. AreFound assignments.now places) }
{
    let mut places = IndexMap::new(alloc);
    for (place, assignment) in assignments.iter().enumerate() {
        let name = assignment.name.text.as_str();
        let number = place_of(place)?;
        add_place(&mut places, name, number)?;
    }
    Ok(places)
}

/// The type that is assigned at a place.
pub fn type_at(assignments: &[Assignment], place: u32) -> Option<&TypeText>
    ensures { option_copied result ≡ type_at assignments.now place }
{
    match &assignments.get(place as usize)?.body {
        Assigned::Typed(of) => Some(of),
        _ => None,
    }
}

impl<'m> Names<'m> {
    /// The names of these assignments.
    pub fn new(alloc: Global, assignments: &'m [Assignment]) -> Result<Names<'m>, NoMemory>
        ensures { IfOk result (λ names. names ≡ assignments.now) }
    {
        let places = name_places(alloc, assignments)?;
        Ok(Names {
            assignments,
            places,
        })
    }

    /// The assignments in the order of the text.
    pub fn assignments(&self) -> &'m [Assignment]
        ensures { result.now ≡ self.now }
    {
        self.assignments
    }

    /// The place of the first assignment of a name.
    pub fn find(&self, name: &Name) -> Option<u32>
        ensures { result ≡ find self.now name.now }
    {
        self.places.get(name.as_str()).copied()
    }

    /// What a name is assigned first.
    pub fn assigned(&self, name: &Name) -> Option<&'m Assigned>
        ensures { option_copied result ≡ assigned self.now name.now }
    {
        let place = self.find(name)?;
        Some(&self.assignments.get(place as usize)?.body)
    }

    /// The type that is assigned at a place.
    pub fn type_at(&self, place: u32) -> Option<&'m TypeText>
        ensures { option_copied result ≡ type_at self.now place }
    {
        type_at(self.assignments, place)
    }

    /// The place of the type of a name.
    pub fn type_place(&self, name: &Name) -> Option<u32>
        ensures { result ≡ type_place self.now name.now }
    {
        let place = self.find(name)?;
        match self.type_at(place) {
            Some(_) => Some(place),
            None => None,
        }
    }
}
