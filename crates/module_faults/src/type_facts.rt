//! What types are as a whole: how deep their rows nest, with which tags their values begin, and
//! which defaults they take; and the faults that these show.
#![tactic(auto, using(crate::proofs::LeastLaws::least_append, crate::proofs::LeastLaws::least_two))]

ghost use Rattle.std.specs.Prelude.{◌≡◌, [], false, slice_get, IfOk, OnOk};
ghost use Rattle.operation_notation.specs.TreeView.{plain_of, parts_of as trees};
ghost use Rattle.operation_notation.specs.Tree.{choice};
ghost use Rattle.module_faults.specs.Least.{least_from};
ghost use Rattle.module_faults.specs.Facts.{other, deeper, has_item, takes, default_faults, nothing, simple, range_base, text_tag, parts_nesting, parts_tags, plain_facts, tagged, type_facts, tags_behind, parts_show, plain_shows, type_shows};
ghost use Rattle.module_faults.specs.Known.{base_of, facts_of, known_by, env_by};

use crate::kind::TableKind;
use crate::least::Least;
use crate::names::Names;
use crate::reach_search::Standing;
use crate::recursion::says;
use crate::tags::{Tag, add_tags, clashes, listed};
use crate::token_tests::is_same_name;
use indexmap::IndexSet;
use operation_notation::{
    DfltText, DfltValue, ItemText, PartText, PlainText, RangeText, TagText, TypeText,
};
use osi_base::{Name, NoMemory};
use std::alloc::Global;

/// What a type is under its names and tags, as far as a default needs it.
#[derive(Clone, Copy)]
pub(crate) enum DefaultKind<'m> {
    Boolean,
    Integer { low: i64, high: i64 },
    Enumerated(&'m [ItemText]),
    Other,
    /// Of a name that is unknown or reaches itself; its defaults aren't judged.
    Unknown,
}

/// What is known of a type.
#[derive(Drop)]
pub(crate) struct Facts<'m> {
    pub nesting: u32,
    pub tags: Vec<Tag>,
    pub base: DefaultKind<'m>,
}

/// The facts of a type that nothing is known of.
fn nothing<'m>(alloc: Global) -> Facts<'m>
    ensures { facts_of result ≡ nothing }
{
    Facts {
        nesting: 0,
        tags: Vec::new(alloc),
        base: DefaultKind::Unknown,
    }
}

/// The facts of a type that begins with one universal tag.
fn simple<'m>(
    alloc: Global,
    number: u32,
    nesting: u32,
    base: DefaultKind<'m>,
) -> Result<Facts<'m>, NoMemory>
    ensures { IfOk result (λ facts. facts_of facts ≡ simple number nesting
        (base_of base.entry)) }
{
    let mut tags = Vec::new(alloc);
    tags.push(Tag { class: 0, number })?;
    Ok(Facts {
        nesting,
        tags,
        base,
    })
}

/// One level more; 33 stands for all that pass 32.
fn deeper(nesting: u32) -> u32
    ensures { result ≡ deeper nesting }
{
    if nesting <= 32 { nesting + 1 } else { nesting }
}

/// The universal tag of a kind of text.
fn text_tag(kind: u8) -> u32
    ensures { result ≡ text_tag kind }
{
    match kind {
        0 => 12,
        1 => 22,
        2 => 26,
        3 => 19,
        _ => 18,
    }
}

/// The numbers of an INTEGER.
fn range_base<'m>(range: &Option<RangeText>) -> DefaultKind<'m>
    ensures { base_of result ≡ range_base range.now }
{
    match range {
        None => DefaultKind::Integer {
            low: i64::MIN,
            high: i64::MAX,
        },
        Some(range) => DefaultKind::Integer {
            low: range.low,
            high: range.high,
        },
    }
}

/// Whether items have one of this name.
fn has_item(items: &[ItemText], name: &Name) -> bool
    ensures { result ≡ has_item items.now name.now }
{
    let mut rest = items;
    while let [item, more @ ..] = rest {
        if is_same_name(&item.name.text, name) {
            return true;
        }
        rest = more;
    }
    false
}

/// Whether a type takes this default, as far as it is known.
fn takes(base: DefaultKind<'_>, value: &DfltValue) -> bool
    ensures { result ≡ takes (base_of base.entry) value.now }
{
    match (base, value) {
        (DefaultKind::Boolean, DfltValue::Truth(_)) => true,
        (DefaultKind::Integer { low, high }, DfltValue::Number(number)) => {
            !(*number < low) && !(high < *number)
        }
        (DefaultKind::Enumerated(items), DfltValue::Item(name)) => has_item(items, name),
        (DefaultKind::Unknown, _) => true,
        _ => false,
    }
}

/// A default that its type doesn't take.
#[tactic(auto, unfolding(crate::specs::Least::least_from))]
fn default_fault(base: DefaultKind<'_>, dflt: &Option<DfltText>, least: &mut Least)
    ensures { least.new.found ≡ least_from least.old.found
        (default_faults (base_of base.entry) dflt.now) }
{
    if let Some(dflt) = dflt {
        let is_bad = !takes(base, &dflt.value);
        least.note_if(is_bad, dflt.line, dflt.column, TableKind::BadDefault);
    }
}

/// The tags that stand before the part behind one.
fn tags_behind(alloc: Global, runs: bool, part: &PartText, before: IndexSet<Tag>) -> IndexSet<Tag>
    ensures { result.keys ≡ tags_behind runs part.now.optional part.now.dflt before.keys }
{
    if runs && (!part.optional && part.dflt.is_none()) {
        IndexSet::new(alloc)
    } else {
        before
    }
}

/// A type with this tag over one.
fn tagged<'m>(alloc: Global, tag: &Option<TagText>, facts: Facts<'m>) -> Result<Facts<'m>, NoMemory>
    ensures { IfOk result (λ over. facts_of over ≡ tagged tag.now (facts_of facts.entry)) }
{
    match tag {
        None => Ok(facts),
        Some(tag) => {
            let mut tags = Vec::new(alloc);
            tags.push(Tag {
                class: tag.class,
                number: tag.number,
            })?;
            Ok(Facts {
                nesting: deeper(facts.nesting),
                tags,
                base: facts.base,
            })
        }
    }
}

/// Types by what is known of those that they name.
#[derive(Clone, Copy)]
pub(crate) struct Facing<'s, 'm> {
    pub alloc: Global,
    pub names: &'s Names<'m>,
    pub standings: &'s [Standing],
    pub known: &'s [Option<Facts<'m>>],
}

impl<'s, 'm> Facing<'s, 'm> {
    /// What is known of the type at a place.
    fn known_at(&self, place: u32) -> Result<Facts<'m>, NoMemory>
        ensures { IfOk result (λ facts. facts_of facts ≡ known_by
            (slice_get self.now.known.now place)) }
    {
        match self.known.get(place as usize) {
            Some(Some(facts)) => Ok(Facts {
                nesting: facts.nesting,
                tags: Vec::from_slice(self.alloc, &facts.tags)?,
                base: facts.base,
            }),
            _ => Ok(nothing(self.alloc)),
        }
    }

    /// The facts of the type of a name; nothing where it is unknown or reaches itself.
    fn named(&self, name: &Name) -> Result<Facts<'m>, NoMemory>
        ensures { IfOk result (λ facts. facts_of facts ≡ env_by self.now
            name.now) }
    {
        match self.names.type_place(name) {
            Some(place) if !says(self.standings, place) => self.known_at(place),
            _ => Ok(nothing(self.alloc)),
        }
    }

    #[cycle(facing)]
    fn item(
        &self,
        levels: u32,
        item: &'m TypeText,
        number: u32,
        least: &mut Least,
    ) -> Result<Facts<'m>, NoMemory>
        ensures facts { IfOk result (λ facts. facts_of facts
            ≡ simple number (deeper (type_facts (env_by self.now) levels item.now).nesting) other) }
        ensures shows { OnOk result (least.new.found ≡ least_from least.old.found
            (type_shows (env_by self.now) levels item.now)) }
    {
        let inner = self.of_type(levels, item, least)?;
        simple(
            self.alloc,
            number,
            deeper(inner.nesting),
            DefaultKind::Other,
        )
    }

    /// The parts of a type: their greatest nesting, and the tags that stand before the end.
    #[cycle(facing)]
    fn parts(
        &self,
        levels: u32,
        parts: &'m [PartText],
        runs: bool,
        least: &mut Least,
    ) -> Result<(u32, IndexSet<Tag>), NoMemory>
        ensures nesting { IfOk result (λ p. p.0 ≡ parts_nesting
            (type_facts (env_by self.now) levels) 0 (trees parts.now)) }
        ensures tags { IfOk result (λ p. p.1.keys ≡ parts_tags
            (type_facts (env_by self.now) levels) runs [] (trees parts.now)) }
        ensures shows { OnOk result (least.new.found ≡ least_from least.old.found
            (parts_show (type_facts (env_by self.now) levels)
            (type_shows (env_by self.now) levels) runs [] (trees parts.now))) }
    {
        let mut nesting: u32 = 0;
        let mut before = IndexSet::new(self.alloc);
        let mut rest = parts;
        while let [part, more @ ..] = rest {
            let facts = self.of_type(levels, &part.of, least)?;
            nesting = nesting.max(facts.nesting);
            let clash = clashes(&before, &facts.tags);
            let name = &part.name;
            least.note_if(clash, name.line, name.column, TableKind::TagsNotDistinct);
            default_fault(facts.base, &part.dflt, least);
            add_tags(&mut before, &facts.tags)?;
            before = tags_behind(self.alloc, runs, part, before);
            rest = more;
        }
        Ok((nesting, before))
    }

    #[cycle(facing)]
    fn constructed(
        &self,
        levels: u32,
        parts: &'m [PartText],
        runs: bool,
        number: u32,
        least: &mut Least,
    ) -> Result<Facts<'m>, NoMemory>
        ensures facts { IfOk result (λ facts. facts_of facts ≡ simple number (deeper
            (parts_nesting (type_facts (env_by self.now) levels) 0 (trees parts.now))) other) }
        ensures shows { OnOk result (least.new.found ≡ least_from least.old.found
            (parts_show (type_facts (env_by self.now) levels)
            (type_shows (env_by self.now) levels) runs [] (trees parts.now))) }
    {
        let (nesting, _) = self.parts(levels, parts, runs, least)?;
        simple(self.alloc, number, deeper(nesting), DefaultKind::Other)
    }

    #[cycle(facing)]
    fn choice(
        &self,
        levels: u32,
        parts: &'m [PartText],
        least: &mut Least,
    ) -> Result<Facts<'m>, NoMemory>
        ensures facts { IfOk result (λ facts. facts_of facts ≡ plain_facts (env_by self.now)
            (type_facts (env_by self.now) levels) (choice (trees parts.now))) }
        ensures shows { OnOk result (least.new.found ≡ least_from least.old.found
            (parts_show (type_facts (env_by self.now) levels)
            (type_shows (env_by self.now) levels) false [] (trees parts.now))) }
    {
        let (nesting, before) = self.parts(levels, parts, false, least)?;
        Ok(Facts {
            nesting: deeper(nesting),
            tags: listed(self.alloc, &before)?,
            base: DefaultKind::Other,
        })
    }

    #[tactic(auto, unfolding(crate::specs::Least::least_from), using(crate::proofs::LeastLaws::least_append, crate::proofs::LeastLaws::least_two))]
    #[cycle(facing)]
    fn of_plain(
        &self,
        levels: u32,
        plain: &'m PlainText,
        least: &mut Least,
    ) -> Result<Facts<'m>, NoMemory>
        ensures facts { IfOk result (λ facts. facts_of facts ≡ plain_facts (env_by self.now)
            (type_facts (env_by self.now) levels) (plain_of plain.now)) }
        ensures shows { OnOk result (least.new.found ≡ least_from least.old.found
            (plain_shows (type_facts (env_by self.now) levels)
            (type_shows (env_by self.now) levels) (plain_of plain.now))) }
    {
        match plain {
            PlainText::Boolean => simple(self.alloc, 1, 1, DefaultKind::Boolean),
            PlainText::Integer(range) => simple(self.alloc, 2, 1, range_base(range)),
            PlainText::Bits => simple(self.alloc, 3, 1, DefaultKind::Other),
            PlainText::Octets(_) => simple(self.alloc, 4, 1, DefaultKind::Other),
            PlainText::Null => simple(self.alloc, 5, 1, DefaultKind::Other),
            PlainText::ObjectId => simple(self.alloc, 6, 1, DefaultKind::Other),
            PlainText::Enumerated(items) => simple(
                self.alloc,
                10,
                1,
                DefaultKind::Enumerated(items),
            ),
            PlainText::Text(kind) => simple(self.alloc, text_tag(*kind), 1, DefaultKind::Other),
            PlainText::SequenceOf(item) => self.item(levels, item, 16, least),
            PlainText::SetOf(item) => self.item(levels, item, 17, least),
            PlainText::Sequence(parts) => self.constructed(levels, parts, true, 16, least),
            PlainText::Set(parts) => self.constructed(levels, parts, false, 17, least),
            PlainText::Choice(parts) => self.choice(levels, parts, least),
            PlainText::Named(name) => self.named(&name.text),
        }
    }

    /// The facts of a type, at most so many levels deep, and the faults that they show.
    #[tactic(auto, unfolding(crate::specs::Facts::type_facts, crate::specs::Facts::type_shows))]
    #[cycle(facing)]
    pub fn of_type(
        &self,
        levels: u32,
        of: &'m TypeText,
        least: &mut Least,
    ) -> Result<Facts<'m>, NoMemory>
        ensures facts { IfOk result (λ facts. facts_of facts
            ≡ type_facts (env_by self.now) levels of.now) }
        ensures shows { OnOk result (least.new.found ≡ least_from least.old.found
            (type_shows (env_by self.now) levels of.now)) }
    {
        if levels == 0 {
            return simple(self.alloc, 0, 33, DefaultKind::Other);
        }
        let inner = self.of_plain(levels - 1, &of.plain, least)?;
        tagged(self.alloc, &of.tag, inner)
    }
}
