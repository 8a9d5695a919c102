//! Numbering the types of a module.

ghost use Rattle.std.specs.Prelude.{◌≡◌, ◌+◌, ℕ, List, Option, Some, None, length, map, replicate, slice_get, slice_set, IfOk, IfSome, OnErr, []};
ghost use Rattle.std.specs.Option.{option_copied};
ghost use Rattle.module_faults.specs.Names.{find, type_at, or_none};
ghost use Rattle.module_compiler.specs.Scope.{behind};
ghost use Rattle.operation_notation.specs.TreeView.{plain_of, parts_of as trees};
ghost use Rattle.module_compiler.specs.Numbering.{NumberedRows, Gives, add, note, known, is_choice, base, base_in, range_row, size_of, item_of, item_number, number_in, default_number, part_of, tagged, parts_of, row_of, row_behind, named_row, plain_row, walk, type_row, use_of};

use crate::fault::Halt;
use crate::scope::Scope;
use asn1_types::{
    Item, Named, Part, Parts, RowRefusal, TypeId, TypeRow, TypeTable, class_numbered, kind_numbered,
};
use module_faults::is_same_name;
use operation_notation::{
    DfltText, DfltValue, ItemText, PartText, PlainText, RangeText, TagText, TypeText, UseText,
};
use osi_base::{Copied, ListOf, Name, NoMemory};
use std::alloc::Global;
use std::marker::Model;
use stub_tables::Use;

/// How many types are walked one inside the other at most.
const MOST_TURNS: u32 = 65;

/// The rows so far, and for each assignment the row of its type, once it has one.
#[derive(Drop)]
pub(crate) struct Numbering {
    pub types: TypeTable,
    pub given: Vec<Option<TypeId>>,
}

impl Model for Numbering {
    ghost use Rattle.operation_notation.specs.TreeView.{plain_of, parts_of as trees};
    ghost use Rattle.module_compiler.specs.Numbering.{NumberedRows};

    ghost Value = { NumberedRows };

    ghost view = { λ n. record { rows = n.types; given = n.given.items } };
}

impl Numbering {
    /// No rows yet, for so many assignments.
    pub fn new(alloc: Global, assignments: usize) -> Result<Numbering, NoMemory>
        ensures { IfOk result (λ numbering. numbering ≡ record {
          rows = [];
          given = replicate assignments None;
        }) }
    {
        Ok(Numbering {
            types: TypeTable::new(alloc),
            given: vec![in alloc; None; assignments]?,
        })
    }

    /// Puts a row behind the others.
    #[tactic(auto, unfolding(crate::specs::Numbering::add))]
    fn add(&mut self, row: TypeRow) -> Result<TypeId, Halt>
        ensures { Gives result self.new (add row self.old) }
    {
        match self.types.add(row) {
            Ok(id) => Ok(id),
            Err(RowRefusal::NoMemory) => Err(Halt::NoMemory),
            Err(_) => Err(Halt::NoTables),
        }
    }

    /// Notes the row of the type at a place.
    fn note(&mut self, place: u32, id: TypeId)
        ensures { self.new ≡ record {
          rows = self.old.rows;
          given = slice_set self.old.given place (Some id);
        } }
    {
        if (place as usize) < self.given.len() {
            self.given[place as usize] = Some(id);
        }
    }

    /// The row of the type at a place, if it has one yet.
    fn given(&self, place: u32) -> Option<TypeId>
        ensures { result ≡ known (slice_get self.now.given place) }
    {
        *self.given.get(place as usize)?
    }

    /// Whether a row is an untagged CHOICE.
    fn is_choice(&self, id: TypeId) -> bool
        ensures { result ≡ is_choice (slice_get self.now.rows id.0) }
    {
        self.types.has(id) && matches!(self.types.row(id), TypeRow::Choice(_))
    }

    /// The row under at most so many tags of a row.
    #[tactic(auto, unfolding(crate::specs::Numbering::base_in))]
    fn base_in(&self, turns: u32, id: TypeId) -> Option<&TypeRow>
        ensures { option_copied result ≡ base_in turns self.now.rows id.0 }
    {
        if turns == 0 || !self.types.has(id) {
            return None;
        }
        match self.types.row(id) {
            TypeRow::Tagged { inner, .. } => self.base_in(turns - 1, *inner),
            row => Some(row),
        }
    }

    /// The row under the tags of a row.
    #[tactic(auto, unfolding(crate::specs::Numbering::base))]
    fn base(&self, id: TypeId) -> Option<&TypeRow>
        ensures { option_copied result ≡ base self.now.rows id.0 }
    {
        self.base_in(32, id)
    }
}

/// The row of an INTEGER.
fn range_row(range: &Option<RangeText>) -> TypeRow
    ensures { result ≡ range_row range.now }
{
    match range {
        None => TypeRow::Integer {
            low: i64::MIN,
            high: i64::MAX,
        },
        Some(range) => TypeRow::Integer {
            low: range.low,
            high: range.high,
        },
    }
}

/// The most octets of an OCTET STRING.
fn size_of(size: &Option<RangeText>) -> Option<u32>
    ensures { result ≡ size_of size.now }
{
    match size {
        None => Some(262_144),
        Some(range) => u32::try_from(range.high).ok(),
    }
}

/// The items of an ENUMERATED.
fn items_of(alloc: Global, items: &[ItemText]) -> Result<Named, NoMemory>
    ensures { IfOk result (λ named. named ≡ map item_of items.now) }
{
    let mut named = ListOf::new(alloc);
    for item in items {
        named.push(Item {
            name: item.name.text.copy(alloc)?,
            number: item.number,
        })?;
    }
    Ok(named)
}

/// The number of the first item of a name.
fn item_number(items: &[Item], name: &Name) -> Option<i64>
    ensures { result ≡ item_number items.now name.now }
{
    for item in items {
        if is_same_name(&item.name, name) {
            return Some(item.number);
        }
    }
    None
}

/// The number that a default is in a row.
fn number_in(row: &TypeRow, value: &DfltValue) -> Option<i64>
    ensures { result ≡ number_in row.now value.now }
{
    match (row, value) {
        (TypeRow::Boolean, DfltValue::Truth(is)) => Some(if *is { 1 } else { 0 }),
        (TypeRow::Integer { .. }, DfltValue::Number(number)) => Some(*number),
        (TypeRow::Enumerated(items), DfltValue::Item(name)) => item_number(items.as_slice(), name),
        _ => None,
    }
}

impl Numbering {
    /// The default of a part.
    #[tactic(auto, unfolding(crate::specs::Numbering::default_number))]
    fn default_of(&self, of: TypeId, dflt: &Option<DfltText>) -> Result<Option<i64>, Halt>
        ensures { IfOk result (λ default. default_number self.now.rows of dflt.now ≡ Some default) }
    {
        match dflt {
            None => Ok(None),
            Some(dflt) => match self.base(of) {
                Some(row) => match number_in(row, &dflt.value) {
                    Some(number) => Ok(Some(number)),
                    None => Err(Halt::NoTables),
                },
                None => Err(Halt::NoTables),
            },
        }
    }

    /// A part of this type.
    #[tactic(auto, unfolding(crate::specs::Numbering::part_of))]
    fn part(&self, alloc: Global, text: &PartText, of: TypeId) -> Result<Part, Halt>
        ensures { Gives result self.now (part_of text.now.name text.now.optional text.now.dflt of
            self.now) }
    {
        Ok(Part {
            name: text.name.text.copy(alloc)?,
            inner: of,
            optional: text.optional,
            default: self.default_of(of, &text.dflt)?,
        })
    }

    /// The row of a type with this tag over a row.
    #[tactic(auto, unfolding(crate::specs::Numbering::tagged))]
    fn tagged(
        &mut self,
        scope: &Scope<'_>,
        tag: &Option<TagText>,
        inner: TypeId,
    ) -> Result<TypeId, Halt>
        ensures { Gives result self.new (tagged scope.now tag.now inner self.old) }
    {
        match tag {
            None => Ok(inner),
            Some(tag) => {
                let stated = match tag.explicit {
                    Some(explicit) => explicit,
                    None => !scope.is_implicit(),
                };
                let explicit = self.is_choice(inner) || stated;
                match class_numbered(i64::from(tag.class)) {
                    Some(class) => self.add(TypeRow::Tagged {
                        class,
                        number: tag.number,
                        explicit,
                        inner,
                    }),
                    None => Err(Halt::NoTables),
                }
            }
        }
    }

    /// The parts of a type.
    #[tactic(auto, unfolding(crate::specs::Numbering::parts_of))]
    #[cycle(walking)]
    fn parts(
        &mut self,
        alloc: Global,
        scope: &Scope<'_>,
        turns: u32,
        texts: &[PartText],
    ) -> Result<Parts, Halt>
        ensures { Gives result self.new (parts_of (walk scope.now turns) [] (trees texts.now)
            self.old) }
    {
        let mut parts = ListOf::new(alloc);
        let mut rest = texts;
        while let [text, more @ ..] = rest {
            let of = self.walk(alloc, scope, turns, &text.of)?;
            parts.push(self.part(alloc, text, of)?)?;
            rest = more;
        }
        Ok(parts)
    }

    /// The row of the type that is assigned at a place and is no alias.
    #[tactic(auto, unfolding(crate::specs::Numbering::row_of))]
    #[cycle(walking)]
    fn row_of(
        &mut self,
        alloc: Global,
        scope: &Scope<'_>,
        turns: u32,
        place: u32,
    ) -> Result<TypeId, Halt>
        ensures { Gives result self.new (row_of scope.now (walk scope.now turns) place self.old) }
    {
        match self.given(place) {
            Some(id) => Ok(id),
            None => match scope.type_at(place) {
                Some(of) => {
                    let id = self.walk(alloc, scope, turns, of)?;
                    self.note(place, id);
                    Ok(id)
                }
                None => Err(Halt::NoTables),
            },
        }
    }

    /// The row of the type of a name.
    #[tactic(auto, unfolding(crate::specs::Numbering::named_row))]
    #[cycle(walking)]
    fn named_row(
        &mut self,
        alloc: Global,
        scope: &Scope<'_>,
        turns: u32,
        name: &Name,
    ) -> Result<TypeId, Halt>
        ensures { Gives result self.new (named_row scope.now (walk scope.now turns) name.now
            self.old) }
    {
        match scope.find(name) {
            Some(place) => match scope.behind(place) {
                Some(behind) => self.row_of(alloc, scope, turns, behind),
                None => Err(Halt::NoTables),
            },
            None => Err(Halt::NoTables),
        }
    }

    /// The row of a type without its tag.
    #[tactic(auto, unfolding(crate::specs::Numbering::plain_row))]
    #[cycle(walking)]
    fn plain_row(
        &mut self,
        alloc: Global,
        scope: &Scope<'_>,
        turns: u32,
        plain: &PlainText,
    ) -> Result<TypeId, Halt>
        ensures { Gives result self.new (plain_row scope.now (walk scope.now turns)
            (plain_of plain.now) self.old) }
    {
        match plain {
            PlainText::Boolean => self.add(TypeRow::Boolean),
            PlainText::Null => self.add(TypeRow::Null),
            PlainText::Integer(range) => self.add(range_row(range)),
            PlainText::Enumerated(items) => {
                let items = items_of(alloc, items)?;
                self.add(TypeRow::Enumerated(items))
            }
            PlainText::Octets(size) => match size_of(size) {
                Some(most) => self.add(TypeRow::OctetString { most }),
                None => Err(Halt::NoTables),
            },
            PlainText::Bits => self.add(TypeRow::BitString),
            PlainText::ObjectId => self.add(TypeRow::ObjectId),
            PlainText::Text(kind) => match kind_numbered(i64::from(*kind)) {
                Some(kind) => self.add(TypeRow::Text(kind)),
                None => Err(Halt::NoTables),
            },
            PlainText::SequenceOf(item) => {
                let of = self.walk(alloc, scope, turns, item)?;
                self.add(TypeRow::SequenceOf(of))
            }
            PlainText::SetOf(item) => {
                let of = self.walk(alloc, scope, turns, item)?;
                self.add(TypeRow::SetOf(of))
            }
            PlainText::Sequence(texts) => {
                let parts = self.parts(alloc, scope, turns, texts)?;
                self.add(TypeRow::Sequence(parts))
            }
            PlainText::Set(texts) => {
                let parts = self.parts(alloc, scope, turns, texts)?;
                self.add(TypeRow::Set(parts))
            }
            PlainText::Choice(texts) => {
                let parts = self.parts(alloc, scope, turns, texts)?;
                self.add(TypeRow::Choice(parts))
            }
            PlainText::Named(name) => self.named_row(alloc, scope, turns, &name.text),
        }
    }

    /// The row of a type in which at most so many types are walked one inside the other.
    #[tactic(auto, unfolding(crate::specs::Numbering::walk))]
    #[cycle(walking)]
    fn walk(
        &mut self,
        alloc: Global,
        scope: &Scope<'_>,
        turns: u32,
        of: &TypeText,
    ) -> Result<TypeId, Halt>
        ensures { Gives result self.new (walk scope.now turns of.now self.old) }
    {
        if turns == 0 {
            return Err(Halt::NoTables);
        }
        let plain = self.plain_row(alloc, scope, turns - 1, &of.plain)?;
        self.tagged(scope, &of.tag, plain)
    }

    /// The row of the type at the place that stands behind aliases.
    #[tactic(auto, unfolding(crate::specs::Numbering::type_row))]
    pub fn row_behind(
        &mut self,
        alloc: Global,
        scope: &Scope<'_>,
        place: u32,
    ) -> Result<TypeId, Halt>
        ensures { Gives result self.new (row_behind scope.now (type_row scope.now)
            (behind scope.now.assignments place) self.old) }
    {
        match scope.behind(place) {
            Some(behind) => self.row_of(alloc, scope, MOST_TURNS, behind),
            None => Err(Halt::NoTables),
        }
    }

    /// What an operation or error carries.
    #[tactic(auto, unfolding(crate::specs::Numbering::use_of, crate::specs::Numbering::type_row))]
    pub fn use_of(
        &mut self,
        alloc: Global,
        scope: &Scope<'_>,
        text: &Option<UseText>,
    ) -> Result<Use, Halt>
        ensures { Gives result self.new (use_of scope.now text.now self.old) }
    {
        match text {
            None => Ok(Use {
                inner: None,
                optional: false,
            }),
            Some(text) => Ok(Use {
                inner: Some(self.walk(alloc, scope, MOST_TURNS, &text.of)?),
                optional: text.optional,
            }),
        }
    }
}
