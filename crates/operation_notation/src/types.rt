//! Parsing types.

ghost use Rattle.std.specs.Prelude.{◌≡◌, ◌≤◌, codes, length, IfOk};
ghost use Rattle.operation_notation.specs.GrammarTypes.{narrow};
ghost use Rattle.operation_notation.specs.Reading.{Gives, GivesAs, behind, listed_at, Shortens};
ghost use Rattle.operation_notation.specs.ReadingTypes.{range_at, size_at, item_at, items_at, class_at, explicit_at, tag_at, text_or_name_at, integer_at, octets_at, leaf_at};
ghost use Rattle.operation_notation.specs.TreeView.{plain_of};

use crate::cursor::Cursor;
use crate::fault::Refusal;
use crate::module::{ItemText, PlainText, RangeText, TagText};
use notation_tokens::NotationKind;
use osi_base::ListOf;
use std::alloc::Global;

impl<'t> Cursor<'t> {
    /// The range of an INTEGER.
    #[tactic(auto, unfolding(crate::specs::ReadingTypes::range_at))]
    fn range(&mut self) -> Result<RangeText, Refusal>
        ensures gives { Gives result self.new (range_at self.old) }
        ensures takes { Shortens result self.old self.new }
    {
        self.expect(b"(")?;
        let place = self.place();
        let low = self.range_end()?;
        self.expect(b"..")?;
        let high = self.range_end()?;
        self.expect(b")")?;
        Ok(RangeText {
            line: place.line,
            column: place.column,
            low,
            high,
        })
    }

    /// The size of an OCTET STRING.
    #[tactic(auto, unfolding(crate::specs::ReadingTypes::size_at))]
    fn size(&mut self) -> Result<RangeText, Refusal>
        ensures gives { Gives result self.new (size_at self.old) }
        ensures takes { Shortens result self.old self.new }
    {
        self.expect(b"(")?;
        self.expect(b"SIZE")?;
        self.expect(b"(")?;
        let place = self.place();
        let low = self.number_64()?;
        self.expect(b"..")?;
        let high = self.number_64()?;
        self.expect(b")")?;
        self.expect(b")")?;
        Ok(RangeText {
            line: place.line,
            column: place.column,
            low,
            high,
        })
    }

    /// An item of an ENUMERATED.
    #[tactic(auto, unfolding(crate::specs::ReadingTypes::item_at))]
    fn item(&mut self, alloc: Global) -> Result<ItemText, Refusal>
        ensures gives { Gives result self.new (item_at self.old) }
        ensures takes { Shortens result self.old self.new }
    {
        let name = self.value_name(alloc)?;
        self.expect(b"(")?;
        let number = self.int()?;
        self.expect(b")")?;
        Ok(ItemText { name, number })
    }

    /// An item behind a comma.
    fn next_item(&mut self, alloc: Global) -> Result<ItemText, Refusal>
        ensures gives { Gives result self.new (behind (codes ",") item_at self.old) }
        ensures takes { Shortens result self.old self.new }
    {
        self.expect(b",")?;
        self.item(alloc)
    }

    /// Items parted by commas.
    #[tactic(auto, using(crate::proofs::Loops::goes, crate::proofs::Loops::stops, crate::proofs::Loops::fails, crate::proofs::Loops::listed_starts))]
    fn listed_items(&mut self, alloc: Global) -> Result<ListOf<ItemText>, Refusal>
        ensures gives { Gives result self.new (listed_at (codes ",") item_at self.old) }
        ensures takes { Shortens result self.old self.new }
    {
        let mut items = ListOf::new(alloc);
        items.push(self.item(alloc)?)?;
        while self.is(b",") {
            items.push(self.next_item(alloc)?)?;
        }
        Ok(items)
    }

    /// The items of an ENUMERATED.
    #[tactic(auto, unfolding(crate::specs::ReadingTypes::items_at))]
    fn items(&mut self, alloc: Global) -> Result<ListOf<ItemText>, Refusal>
        ensures gives { Gives result self.new (items_at self.old) }
        ensures takes { Shortens result self.old self.new }
    {
        self.expect(b"{")?;
        let items = self.listed_items(alloc)?;
        self.expect(b"}")?;
        Ok(items)
    }

    /// The class of a tag, which is context-specific where none is written.
    #[tactic(auto, unfolding(crate::specs::ReadingTypes::class_at))]
    fn class(&mut self) -> Result<u8, Refusal>
        ensures gives { Gives result self.new (class_at self.old) }
        ensures keeps { length self.new ≤ length self.old }
    {
        if self.is(b"UNIVERSAL") {
            self.expect(b"UNIVERSAL")?;
            Ok(0)
        } else if self.is(b"APPLICATION") {
            self.expect(b"APPLICATION")?;
            Ok(1)
        } else if self.is(b"PRIVATE") {
            self.expect(b"PRIVATE")?;
            Ok(3)
        } else {
            Ok(2)
        }
    }

    /// Whether a tag is explicit, where that is written.
    #[tactic(auto, unfolding(crate::specs::ReadingTypes::explicit_at))]
    fn explicit(&mut self) -> Result<Option<bool>, Refusal>
        ensures gives { Gives result self.new (explicit_at self.old) }
        ensures keeps { length self.new ≤ length self.old }
    {
        if self.is(b"IMPLICIT") {
            self.expect(b"IMPLICIT")?;
            Ok(Some(false))
        } else if self.is(b"EXPLICIT") {
            self.expect(b"EXPLICIT")?;
            Ok(Some(true))
        } else {
            Ok(None)
        }
    }

    /// A tag.
    #[tactic(auto, unfolding(crate::specs::ReadingTypes::tag_at))]
    pub fn tag(&mut self) -> Result<TagText, Refusal>
        ensures gives { Gives result self.new (tag_at self.old) }
        ensures takes { Shortens result self.old self.new }
    {
        self.expect(b"[")?;
        let class = self.class()?;
        let number = self.arc_number(u32::MAX)?;
        self.expect(b"]")?;
        let explicit = self.explicit()?;
        Ok(TagText {
            class,
            number,
            explicit,
        })
    }

    /// A text, or the name of a type.
    #[tactic(auto, unfolding(crate::specs::ReadingTypes::text_or_name_at))]
    fn text_or_name(&mut self, alloc: Global) -> Result<PlainText, Refusal>
        ensures gives { GivesAs plain_of result self.new (text_or_name_at narrow self.old) }
        ensures takes { Shortens result self.old self.new }
    {
        if self.is_text_kind() {
            return Ok(PlainText::Text(self.text_kind()?));
        }
        let name = self.type_name(alloc)?;
        if self.is(b"{") {
            return Err(Refusal::Fault(NotationKind::Unsupported));
        }
        Ok(PlainText::Named(name))
    }

    /// What follows the word INTEGER.
    #[tactic(auto, unfolding(crate::specs::ReadingTypes::integer_at))]
    fn integer_type(&mut self) -> Result<PlainText, Refusal>
        ensures gives { GivesAs plain_of result self.new (integer_at self.old) }
        ensures takes { Shortens result self.old self.new }
    {
        self.expect(b"INTEGER")?;
        let range = if self.is(b"(") {
            Some(self.range()?)
        } else {
            None
        };
        Ok(PlainText::Integer(range))
    }

    /// An OCTET STRING.
    #[tactic(auto, unfolding(crate::specs::ReadingTypes::octets_at))]
    fn octets_type(&mut self) -> Result<PlainText, Refusal>
        ensures gives { GivesAs plain_of result self.new (octets_at self.old) }
        ensures takes { Shortens result self.old self.new }
    {
        self.expect(b"OCTET")?;
        self.expect(b"STRING")?;
        let size = if self.is(b"(") {
            Some(self.size()?)
        } else {
            None
        };
        Ok(PlainText::Octets(size))
    }

    /// A type that holds no other types, without its tag.
    #[tactic(auto, unfolding(crate::specs::ReadingTypes::leaf_at))]
    pub fn leaf(&mut self, alloc: Global) -> Result<PlainText, Refusal>
        ensures gives { GivesAs plain_of result self.new (leaf_at narrow self.old) }
        ensures takes { Shortens result self.old self.new }
    {
        if self.is(b"BOOLEAN") {
            self.expect(b"BOOLEAN")?;
            Ok(PlainText::Boolean)
        } else if self.is(b"NULL") {
            self.expect(b"NULL")?;
            Ok(PlainText::Null)
        } else if self.is(b"INTEGER") {
            self.integer_type()
        } else if self.is(b"ENUMERATED") {
            self.expect(b"ENUMERATED")?;
            Ok(PlainText::Enumerated(self.items(alloc)?.into_vec()))
        } else if self.is(b"OCTET") {
            self.octets_type()
        } else if self.is(b"BIT") {
            self.expect(b"BIT")?;
            self.expect(b"STRING")?;
            Ok(PlainText::Bits)
        } else if self.is(b"OBJECT") {
            self.expect(b"OBJECT")?;
            self.expect(b"IDENTIFIER")?;
            Ok(PlainText::ObjectId)
        } else {
            self.text_or_name(alloc)
        }
    }
}
