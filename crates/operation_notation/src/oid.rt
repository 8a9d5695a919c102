//! Parsing object identifiers.

ghost use Rattle.std.specs.Prelude.{◌≡◌, ◌≤◌, codes, length, IfOk, IfSome};
ghost use Rattle.osi_base.specs.Limits.{most_32};
ghost use Rattle.operation_notation.specs.Reading.{Gives, number_at, many_at, Shortens};
ghost use Rattle.notation_tokens.specs.Lexeme.{goes_on};
ghost use Rattle.operation_notation.specs.ReadingTypes.{bracketed_at, arc_at, named_root_at, root_at, most_second, oid_at};

use crate::cursor::Cursor;
use crate::fault::Refusal;
use osi_base::{ListOf, Oid};
use std::alloc::Global;

impl<'t> Cursor<'t> {
    /// A number of 32 bits that is at most `most`.
    pub fn arc_number(&mut self, most: u32) -> Result<u32, Refusal>
        ensures gives { Gives result self.new (number_at most self.old) }
        ensures takes { Shortens result self.old self.new }
        ensures most { IfOk result (λ arc. arc ≤ most) }
    {
        let arc = self.number(u64::from(most))?;
        Ok(arc as u32)
    }

    /// The number of an arc in brackets.
    #[tactic(auto, unfolding(crate::specs::ReadingTypes::bracketed_at))]
    fn bracketed_arc(&mut self, most: u32) -> Result<u32, Refusal>
        ensures gives { Gives result self.new (bracketed_at most self.old) }
        ensures takes { Shortens result self.old self.new }
        ensures most { IfOk result (λ arc. arc ≤ most) }
    {
        self.expect(b"(")?;
        let arc = self.arc_number(most)?;
        self.expect(b")")?;
        Ok(arc)
    }

    /// An arc: a number, or a name with the number in brackets.
    #[tactic(auto, unfolding(crate::specs::ReadingTypes::arc_at))]
    fn arc(&mut self, most: u32) -> Result<u32, Refusal>
        ensures gives { Gives result self.new (arc_at most self.old) }
        ensures takes { Shortens result self.old self.new }
        ensures most { IfOk result (λ arc. arc ≤ most) }
    {
        if self.starts_name() {
            self.arc_name()?;
            self.bracketed_arc(most)
        } else {
            self.arc_number(most)
        }
    }

    /// What follows the name of a first arc: its number in brackets, or nothing where the name
    /// stands for an arc alone.
    #[tactic(auto, unfolding(crate::specs::ReadingTypes::named_root_at))]
    fn named_root(&mut self, alone: Option<u32>) -> Result<u32, Refusal>
        requires { IfSome alone (λ root. root ≤ 2) }
        ensures gives { Gives result self.new (named_root_at alone self.old) }
        ensures most { IfOk result (λ root. root ≤ 2) }
        ensures keeps { length self.new ≤ length self.old }
    {
        if self.is(b"(") {
            return self.bracketed_arc(2);
        }
        match alone {
            Some(root) => Ok(root),
            None => Err(Refusal::Fault(self.kind())),
        }
    }

    /// The first arc.
    #[tactic(auto, unfolding(crate::specs::ReadingTypes::root_at))]
    fn root(&mut self) -> Result<u32, Refusal>
        ensures gives { Gives result self.new (root_at self.old) }
        ensures most { IfOk result (λ root. root ≤ 2) }
        ensures takes { Shortens result self.old self.new }
    {
        if self.starts_name() {
            let alone = self.root_word();
            self.arc_name()?;
            self.named_root(alone)
        } else {
            self.arc_number(2)
        }
    }

    #[tactic(auto, using(crate::proofs::Loops::counted_goes, crate::proofs::Loops::with_front_nothing))]
    /// The arcs behind the second, of which there are 30 at most.
    fn more_arcs(&mut self, alloc: Global) -> Result<ListOf<u32>, Refusal>
        ensures gives { Gives result self.new
            (many_at (goes_on (codes "}")) (arc_at most_32) 30 self.old) }
        ensures keeps { length self.new ≤ length self.old }
        ensures few { IfOk result (λ arcs. length arcs ≤ 30) }
    {
        let mut arcs = ListOf::new(alloc);
        for _ in 0..30_u32 {
            if !self.goes_on(b"}") {
                return Ok(arcs);
            }
            arcs.push(self.arc(u32::MAX)?)?;
        }
        Ok(arcs)
    }

    /// An object identifier in braces.
    #[tactic(auto, unfolding(crate::specs::ReadingTypes::oid_at))]
    pub fn oid(&mut self, alloc: Global) -> Result<Oid, Refusal>
        ensures gives { Gives result self.new (oid_at self.old) }
        ensures takes { Shortens result self.old self.new }
    {
        self.expect(b"{")?;
        let root = self.root()?;
        let second = self.arc(if root < 2 { 39 } else { u32::MAX })?;
        let others = self.more_arcs(alloc)?;
        self.expect(b"}")?;
        let mut arcs = Vec::new(alloc);
        arcs.push(root)?;
        arcs.push(second)?;
        arcs.extend_from_slice(others.as_slice())?;
        Ok(Oid::from_vec(arcs).unwrap())
    }
}
