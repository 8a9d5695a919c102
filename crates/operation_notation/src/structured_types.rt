//! Parsing types that hold types.

ghost use Rattle.std.specs.Prelude.{◌≡◌, ◌≤◌, codes, length};
ghost use Rattle.operation_notation.specs.GrammarTypes.{narrow};
ghost use Rattle.operation_notation.specs.Reading.{Gives, GivesAs, behind, listed_at, Shortens};
ghost use Rattle.operation_notation.specs.ReadingTypes.{absence_at, absent_at, part_at, parts_at, alternatives_at, sequence_at, set_at, choice_at, plain_at, type_text_at, type_at, outer_type_at, deep_kind};
ghost use Rattle.operation_notation.specs.TreeView.{plain_of};

use crate::cursor::Cursor;
use crate::fault::Refusal;
use crate::module::{DfltText, PartText, PlainText, TypeText};
use notation_tokens::NotationKind;
use osi_base::ListOf;
use std::alloc::Global;

/// How a part may be absent.
#[derive(Debug, Drop)]
pub(crate) struct Absence {
    pub optional: bool,
    pub dflt: Option<DfltText>,
}

/// How many levels deep types may stand in one another.
const MOST_LEVELS: u32 = 256;

impl<'t> Cursor<'t> {
    /// How a part may be absent.
    #[tactic(auto, unfolding(crate::specs::ReadingTypes::absence_at))]
    fn absence(&mut self, alloc: Global) -> Result<Absence, Refusal>
        ensures gives { Gives result self.new (absence_at self.old) }
        ensures keeps { length self.new ≤ length self.old }
    {
        if self.is(b"OPTIONAL") {
            self.expect(b"OPTIONAL")?;
            Ok(Absence {
                optional: true,
                dflt: None,
            })
        } else if self.is(b"DEFAULT") {
            self.expect(b"DEFAULT")?;
            let dflt = self.dflt(alloc)?;
            Ok(Absence {
                optional: false,
                dflt: Some(dflt),
            })
        } else {
            Ok(Absence {
                optional: false,
                dflt: None,
            })
        }
    }

    /// How a part may be absent, where that may be written.
    #[tactic(auto, unfolding(crate::specs::ReadingTypes::absent_at))]
    fn absent(&mut self, alloc: Global, may: bool) -> Result<Absence, Refusal>
        ensures gives { Gives result self.new (absent_at may self.old) }
        ensures keeps { length self.new ≤ length self.old }
    {
        if may {
            self.absence(alloc)
        } else {
            Ok(Absence {
                optional: false,
                dflt: None,
            })
        }
    }

    /// A part of a SEQUENCE or SET, or an alternative, whose type has so many levels at most.
    #[cycle(types)]
    #[tactic(auto, unfolding(crate::specs::ReadingTypes::part_at))]
    fn part(&mut self, alloc: Global, levels: u32, may: bool) -> Result<PartText, Refusal>
        ensures gives { Gives result self.new (part_at may (type_at narrow levels) self.old) }
        ensures takes { Shortens result self.old self.new }
    {
        let name = self.value_name(alloc)?;
        let of = self.type_text(alloc, levels)?;
        let absence = self.absent(alloc, may)?;
        Ok(PartText {
            name,
            of,
            optional: absence.optional,
            dflt: absence.dflt,
        })
    }

    /// A part behind a comma.
    #[cycle(types)]
    fn next_part(&mut self, alloc: Global, levels: u32, may: bool) -> Result<PartText, Refusal>
        ensures gives { Gives result self.new
            (behind (codes ",") (part_at may (type_at narrow levels)) self.old) }
        ensures takes { Shortens result self.old self.new }
    {
        self.expect(b",")?;
        self.part(alloc, levels, may)
    }

    /// Parts parted by commas.
    #[cycle(types)]
    #[tactic(auto, using(crate::proofs::Loops::goes, crate::proofs::Loops::listed_starts))]
    fn listed_parts(
        &mut self,
        alloc: Global,
        levels: u32,
        may: bool,
    ) -> Result<ListOf<PartText>, Refusal>
        ensures gives { Gives result self.new
            (listed_at (codes ",") (part_at may (type_at narrow levels)) self.old) }
        ensures takes { Shortens result self.old self.new }
    {
        let mut parts = ListOf::new(alloc);
        parts.push(self.part(alloc, levels, may)?)?;
        while self.is(b",") {
            parts.push(self.next_part(alloc, levels, may)?)?;
        }
        Ok(parts)
    }

    /// The parts of a SEQUENCE or SET, of which there may be none.
    #[cycle(types)]
    #[tactic(auto, unfolding(crate::specs::ReadingTypes::parts_at))]
    fn parts(&mut self, alloc: Global, levels: u32) -> Result<ListOf<PartText>, Refusal>
        ensures gives { Gives result self.new (parts_at (type_at narrow levels) self.old) }
        ensures takes { Shortens result self.old self.new }
    {
        self.expect(b"{")?;
        let parts = if self.is(b"}") {
            ListOf::new(alloc)
        } else {
            self.listed_parts(alloc, levels, true)?
        };
        self.expect(b"}")?;
        Ok(parts)
    }

    /// The alternatives of a CHOICE.
    #[cycle(types)]
    #[tactic(auto, unfolding(crate::specs::ReadingTypes::alternatives_at))]
    fn alternatives(&mut self, alloc: Global, levels: u32) -> Result<ListOf<PartText>, Refusal>
        ensures gives { Gives result self.new (alternatives_at (type_at narrow levels) self.old) }
        ensures takes { Shortens result self.old self.new }
    {
        self.expect(b"{")?;
        let parts = self.listed_parts(alloc, levels, false)?;
        self.expect(b"}")?;
        Ok(parts)
    }

    /// A SEQUENCE or SEQUENCE OF.
    #[cycle(types)]
    #[tactic(auto, unfolding(crate::specs::ReadingTypes::sequence_at))]
    fn sequence(&mut self, alloc: Global, levels: u32) -> Result<PlainText, Refusal>
        ensures gives { GivesAs plain_of result self.new
            (sequence_at (type_at narrow levels) self.old) }
        ensures takes { Shortens result self.old self.new }
    {
        self.expect(b"SEQUENCE")?;
        if self.is(b"OF") {
            self.expect(b"OF")?;
            let item = self.type_text(alloc, levels)?;
            Ok(PlainText::SequenceOf(Box::new(alloc, item)?))
        } else {
            let parts = self.parts(alloc, levels)?;
            Ok(PlainText::Sequence(parts.into_vec()))
        }
    }

    /// A SET or SET OF.
    #[cycle(types)]
    #[tactic(auto, unfolding(crate::specs::ReadingTypes::set_at))]
    fn set(&mut self, alloc: Global, levels: u32) -> Result<PlainText, Refusal>
        ensures gives { GivesAs plain_of result self.new (set_at (type_at narrow levels) self.old) }
        ensures takes { Shortens result self.old self.new }
    {
        self.expect(b"SET")?;
        if self.is(b"OF") {
            self.expect(b"OF")?;
            let item = self.type_text(alloc, levels)?;
            Ok(PlainText::SetOf(Box::new(alloc, item)?))
        } else {
            let parts = self.parts(alloc, levels)?;
            Ok(PlainText::Set(parts.into_vec()))
        }
    }

    /// A CHOICE.
    #[cycle(types)]
    #[tactic(auto, unfolding(crate::specs::ReadingTypes::choice_at))]
    fn choice(&mut self, alloc: Global, levels: u32) -> Result<PlainText, Refusal>
        ensures gives { GivesAs plain_of result self.new
            (choice_at (type_at narrow levels) self.old) }
        ensures takes { Shortens result self.old self.new }
    {
        self.expect(b"CHOICE")?;
        let parts = self.alternatives(alloc, levels)?;
        Ok(PlainText::Choice(parts.into_vec()))
    }

    /// A type without its tag.
    #[cycle(types)]
    #[tactic(auto, unfolding(crate::specs::ReadingTypes::plain_at))]
    fn plain(&mut self, alloc: Global, levels: u32) -> Result<PlainText, Refusal>
        ensures gives { GivesAs plain_of result self.new
            (plain_at narrow (type_at narrow levels) self.old) }
        ensures takes { Shortens result self.old self.new }
    {
        if self.is(b"SEQUENCE") {
            self.sequence(alloc, levels)
        } else if self.is(b"SET") {
            self.set(alloc, levels)
        } else if self.is(b"CHOICE") {
            self.choice(alloc, levels)
        } else {
            self.leaf(alloc)
        }
    }

    /// A type whose inner types have so many levels at most.
    #[cycle(types)]
    #[tactic(auto, unfolding(crate::specs::ReadingTypes::type_text_at))]
    fn type_over(&mut self, alloc: Global, levels: u32) -> Result<TypeText, Refusal>
        ensures gives { Gives result self.new
            (type_text_at narrow (type_at narrow levels) self.old) }
        ensures takes { Shortens result self.old self.new }
    {
        let place = self.place();
        let tag = if self.is(b"[") {
            Some(self.tag()?)
        } else {
            None
        };
        let plain = self.plain(alloc, levels)?;
        Ok(TypeText {
            line: place.line,
            column: place.column,
            tag,
            plain,
        })
    }

    /// A type in which types stand in one another at most so many levels deep.
    #[cycle(types)]
    #[tactic(auto, using(crate::proofs::Levels::type_at_none, crate::proofs::Levels::type_at_some))]
    pub fn type_text(&mut self, alloc: Global, levels: u32) -> Result<TypeText, Refusal>
        ensures gives { Gives result self.new (type_at narrow levels self.old) }
        ensures takes { Shortens result self.old self.new }
    {
        if levels == 0 {
            Err(Refusal::Fault(self.deep()))
        } else {
            self.type_over(alloc, levels - 1)
        }
    }

    /// A type at the outermost level.
    #[tactic(auto, unfolding(crate::specs::ReadingTypes::outer_type_at))]
    pub fn outer_type(&mut self, alloc: Global) -> Result<TypeText, Refusal>
        ensures gives { Gives result self.new (outer_type_at narrow self.old) }
        ensures takes { Shortens result self.old self.new }
    {
        self.type_text(alloc, MOST_LEVELS)
    }

    /// The kind of fault that the next token is where a type would stand too deep.
    #[tactic(auto, unfolding(crate::specs::ReadingTypes::deep_kind))]
    fn deep(&self) -> NotationKind
        ensures { result ≡ deep_kind self.now }
    {
        if self.starts_type() {
            NotationKind::Unsupported
        } else {
            self.kind()
        }
    }
}
