//! What the names of a module stand for.

ghost use Rattle.std.specs.Prelude.{◌≡◌, ◌<◌, ◌≤◌, ◌^◌, ℕ, List, Some, None, length, IfOk, IfSome, slice_get, slice_set, option_map};
ghost use Rattle.std.specs.Option.{option_copied};
ghost use Rattle.std.specs.Str.{bytes_eq};
ghost use Rattle.indexmap.specs.IndexMap.{get_by};
ghost use Rattle.module_faults.specs.Names.{find, type_at, or_none, AreFound};
ghost use Rattle.module_compiler.specs.Scope.{behind, behind_by, alias, is_plain};
ghost use Rattle.module_compiler.specs.Kept.{AreFollowed, AreBehind, IsFollowed, IsBehind, IsOneMore, Leads, From};

use indexmap::IndexMap;
use module_faults::{name_places, type_at};
use operation_notation::{Assigned, Assignment, ModuleText, PlainText, TypeText};
use osi_base::{Name, NoMemory};
use std::alloc::Global;
use std::marker::Model;

/// A type that stands behind aliases, and over how many of them.
#[derive(Clone, Copy)]
struct Behind {
    place: u32,
    aliases: u32,
}

/// How far it is known what stands behind the aliases from a place on.
#[derive(Clone, Copy)]
enum Followed {
    NotYet,
    Open,
    Known(Option<Behind>),
}

/// The assignments of a module, by their places and names.
#[derive(Drop)]
pub(crate) struct Scope<'m> {
    assignments: &'m [Assignment],
    implicit: bool,
    places: IndexMap<&'m str, u32>,
    behind: Vec<Option<Behind>>,
}

impl<'m> Model for Scope<'m> {
    ghost use Rattle.module_compiler.specs.Scope.{Ground};
    ghost use Rattle.module_faults.specs.Names.{AreFound};
    ghost use Rattle.module_compiler.specs.Kept.{AreBehind};

    ghost Value = { Ground };

    ghost use Rattle.std.specs.Coded.{codes};
    ghost use Rattle.operation_notation.specs.TreeCode.{coded_type};

    ghost coded = { Prim.hlevel (codes, coded_type) };

    ghost view = { λ s. record { assignments = s.assignments.now; implicit = s.implicit } };

    ghost invariant = { λ s. record {
      found : AreFound s.assignments.now s.places;
      behind : AreBehind s.assignments.now s.behind.items;
    } };
}

/// The Name that a type without a tag is, if it is one.
pub(crate) fn alias(of: &TypeText) -> Option<&Name>
    ensures { option_copied result ≡ alias of.now }
{
    match (&of.tag, &of.plain) {
        (None, PlainText::Named(name)) => Some(&name.text),
        _ => None,
    }
}

/// The place of a name.
fn place_of(places: &IndexMap<&str, u32>, name: &Name) -> Option<u32>
    ensures { result ≡ get_by (λ k. bytes_eq name.now k.now) places.now }
{
    places.get(name.as_str()).copied()
}

/// The place of the next type behind an alias.
fn next(assignments: &[Assignment], places: &IndexMap<&str, u32>, place: u32) -> Option<u32>
    requires { AreFound assignments.now places.now }
    ensures { result ≡ or_none (or_none (type_at assignments.now place) alias)
        (find assignments.now) }
{
    match &assignments.get(place as usize)?.body {
        Assigned::Typed(of) => place_of(places, alias(of)?),
        _ => None,
    }
}

fn is_type(assignments: &[Assignment], place: u32) -> bool
    ensures { result ≡ is_plain (type_at assignments.now place) }
{
    match assignments.get(place as usize) {
        Some(assignment) => match &assignment.body {
            Assigned::Typed(of) => alias(of).is_none(),
            _ => false,
        },
        None => false,
    }
}

impl<'m> Scope<'m> {
    /// The scope of a module.
    pub fn new(alloc: Global, text: &'m ModuleText) -> Result<Scope<'m>, NoMemory>
        ensures { IfOk result (λ scope. scope ≡ record {
          assignments = text.now.assignments;
          implicit = text.now.implicit;
        }) }
    {
        let assignments = text.assignments.as_slice();
        let places = name_places(alloc, assignments)?;
        let behind = follow_all(alloc, assignments, &places)?;
        Ok(Scope {
            assignments,
            implicit: text.implicit,
            places,
            behind,
        })
    }

    /// The assignments in the order of the text.
    pub fn assignments(&self) -> &'m [Assignment]
        ensures { result.now ≡ self.now.assignments }
    {
        self.assignments
    }

    /// Whether a tag is implicit unless it says otherwise.
    pub fn is_implicit(&self) -> bool
        ensures { result ≡ self.now.implicit }
    {
        self.implicit
    }

    /// The place of the first assignment of a name.
    pub fn find(&self, name: &Name) -> Option<u32>
        ensures { result ≡ find self.now.assignments name.now }
    {
        place_of(&self.places, name)
    }

    /// The place of the type that stands behind the aliases from a place on.
    pub fn behind(&self, place: u32) -> Option<u32>
        ensures { IfSome result (λ found. behind self.now.assignments place ≡ Some found) }
    {
        match self.behind.get(place as usize)? {
            Some(found) if (found.aliases as usize) < self.assignments.len() => Some(found.place),
            _ => None,
        }
    }

    /// The type that is assigned at a place.
    pub fn type_at(&self, place: u32) -> Option<&'m TypeText>
        ensures { option_copied result ≡ type_at self.now.assignments place }
    {
        type_at(self.assignments, place)
    }
}

/// What stands behind the aliases from each place on.
fn follow_all(
    alloc: Global,
    assignments: &[Assignment],
    places: &IndexMap<&str, u32>,
) -> Result<Vec<Option<Behind>>, NoMemory>
    requires { AreFound assignments.now places.now }
    ensures { IfOk result (λ behind. AreBehind assignments.now behind.items) }
{
    let mut followed = vec![in alloc; Followed::NotYet; assignments.len()]?;
    let mut behind = Vec::new(alloc);
    for place in 0..assignments.len() {
        let Ok(place) = u32::try_from(place) else {
            return Err(NoMemory);
        };
        behind.push(follow(alloc, assignments, places, &mut followed, place)?)?;
    }
    Ok(behind)
}

/// Notes how far it is known what stands behind a place.
fn note(followed: &mut [Followed], place: u32, now: Followed)
    ensures { followed.new ≡ slice_set followed.old place now }
{
    if (place as usize) < followed.len() {
        followed[place as usize] = now;
    }
}

/// Goes along aliases as long as it isn't known what stands behind them, and notes them.
fn chase(
    alloc: Global,
    assignments: &[Assignment],
    places: &IndexMap<&str, u32>,
    followed: &mut [Followed],
    place: u32,
) -> Result<(Vec<u32>, u32), NoMemory>
    requires found { AreFound assignments.now places.now }
    requires followed { AreFollowed assignments.now followed.old }
    ensures leads { IfOk result (λ chased. Leads assignments.now chased.0.items chased.1) }
    ensures from { IfOk result (λ chased. From place chased.0.items chased.1) }
    ensures followed { AreFollowed assignments.now followed.new }
{
    let mut chain = Vec::new(alloc);
    let mut at = place;
    for _ in 0..assignments.len() {
        let Some(Followed::NotYet) = followed.get(at as usize) else {
            break;
        };
        let Some(then) = next(assignments, places, at) else {
            break;
        };
        note(followed, at, Followed::Open);
        chain.push(at)?;
        at = then;
    }
    Ok((chain, at))
}

/// What is known to stand behind a place, or the place itself where a type stands there.
fn known_at(assignments: &[Assignment], followed: &[Followed], place: u32) -> Option<Behind>
    requires { AreFollowed assignments.now followed.now }
    ensures { IsBehind assignments.now place result }
{
    match followed.get(place as usize) {
        Some(Followed::NotYet) if is_type(assignments, place) => Some(Behind { place, aliases: 0 }),
        Some(Followed::Known(found)) => *found,
        _ => None,
    }
}

/// The same behind one alias more.
fn one_more(found: Option<Behind>) -> Option<Behind>
    ensures { IsOneMore found result }
{
    match found {
        Some(found) if found.aliases < u32::MAX => Some(Behind {
            place: found.place,
            aliases: found.aliases + 1,
        }),
        _ => None,
    }
}

/// Goes back to an alias, and notes what stands behind it.
fn step_back(followed: &mut [Followed], place: u32, found: Option<Behind>) -> Option<Behind>
    ensures one { IsOneMore found result }
    ensures followed { followed.new ≡ slice_set followed.old place (Followed.Known result) }
{
    let more = one_more(found);
    note(followed, place, Followed::Known(more));
    more
}

/// What stands behind the aliases from a place on.
fn follow(
    alloc: Global,
    assignments: &[Assignment],
    places: &IndexMap<&str, u32>,
    followed: &mut [Followed],
    place: u32,
) -> Result<Option<Behind>, NoMemory>
    requires found { AreFound assignments.now places.now }
    requires followed { AreFollowed assignments.now followed.old }
    ensures found { IfOk result (λ found. IsBehind assignments.now place found) }
    ensures followed { AreFollowed assignments.now followed.new }
{
    let (chain, at) = chase(alloc, assignments, places, followed, place)?;
    let mut chain = chain;
    let mut at = at;
    let mut found = known_at(assignments, followed, at);
    note(followed, at, Followed::Known(found));
    while let Some(before) = chain.pop() {
        found = step_back(followed, before, found);
        at = before;
    }
    Ok(found)
}
