//! The side that performs: what becomes of invocations.

ghost use Rattle.std.specs.Prelude.{◌≡◌, ℕ, ℤ, List, not, ◌&&◌, nat_le, [], length, None, Some, true, false, IfOk, OnOk, OnErr};
ghost use Rattle.std.specs.Option.{option_map};
ghost use Rattle.osi_base.specs.Limits.{most_open};
ghost use Rattle.stub_tables.specs.Lookup.{operation_at};
ghost use Rattle.stub_tables.specs.Apdus.{placed, argument_of};
ghost use Rattle.apdu_spelling.specs.declared.head.ApduKind.TheVariants as kinds;
ghost use Rattle.linked_ops.specs.Entries.{Entry, IsForest, is_open, is_open_or_none};
ghost use Rattle.end_wire.specs.end_rules.Base.{Base, Carried};
ghost use Rattle.end_wire.specs.end_rules.State.{close, opens_of};
ghost use Rattle.end_wire.specs.end_rules.Hearing.{with_opened, invoked, value_in, first_problem, problem_if};
ghost use Rattle.rose_roles.specs.Calls.{Kept, Invoking, called, key_of, AreOpen, calls_of, open_calls_in, PerformerKeeps};
ghost use Rattle.rose_roles.specs.Heads.{is_invocation, Carries};
ghost use Rattle.rose_roles.specs.ApduProblems.{silent, known_problem, early_problem, invoke_problem, IsValueOrProblem, IsFree};
ghost use Rattle.rose_roles.specs.Hearing.{Hears, heard_with};

use crate::apdu_problems::{ValueOrProblem, argument_or_problem, is_silent_at, link_problem};
use crate::apdu_taken::{RoseTaken, invoke_rejected, invoked};
use crate::invoked_with::InvokedWith;
use crate::invoker::Invoker;
use crate::opening::{called, enter, key_of, leave};
use apdu_spelling::ApduHead;
use asn1_types::Val;
use linked_ops::Forest;
use osi_base::{NoMemory, Syntax};
use std::alloc::Global;
use std::collections::BTreeMap;
use std::marker::Model;
use stub_tables::Tables;

/// The open invocations of the peer, each with its operation and context, and the context on which
/// the next APDU comes. Their keys stand in the forest.
#[derive(Drop)]
pub struct Performer {
    alloc: Global,
    kept: BTreeMap<i64, InvokedWith>,
    context: u32,
}

/// The first of two problems.
fn first_problem(first: Option<u8>, later: Option<u8>) -> Option<u8>
    ensures { result ≡ first_problem first later }
{
    match first {
        Some(number) => Some(number),
        None => later,
    }
}

/// A problem where it holds.
fn problem_if(holds: bool, number: u8) -> Option<u8>
    ensures { result ≡ problem_if holds number }
{
    if holds { Some(number) } else { None }
}

/// The problem of an operation's place and of a link.
fn known_problem(
    own: &Invoker,
    tables: &Tables,
    linked: &Option<i64>,
    place: Option<u32>,
) -> Option<u8>
    ensures { result ≡ known_problem tables.now own.now.kept linked.now place }
{
    match (place, linked) {
        (None, _) => Some(1),
        (Some(_), None) => None,
        (Some(place), Some(linked)) => link_problem(tables, own.called(linked), place),
    }
}

impl Model for Performer {
    ghost use Rattle.rose_roles.specs.Calls.{Performing};

    ghost Value = { Performing };

    ghost view = { λ p. record { kept = p.kept.entries; context = p.context } };
}

impl Performer {
    /// No invocation of the peer is open, and APDUs come on context 0.
    pub fn new(alloc: Global) -> Performer
        ensures { result ≡ record { kept = []; context = 0 } }
    {
        Performer {
            alloc,
            kept: BTreeMap::new(alloc),
            context: 0,
        }
    }

    /// Says on which presentation context the next APDU comes.
    pub fn set_context(&mut self, context: u32)
        ensures { self.new ≡ record self.old { context = context } }
    {
        self.context = context;
    }

    /// What is called under an identifier of the peer, where it is open.
    pub fn called(&self, id: &i64) -> Option<InvokedWith>
        ensures { result ≡ called id.now self.now.kept }
    {
        called(&self.kept, id)
    }

    /// How many invocations of the peer are open; so many keys of the peer stand in the forest.
    pub fn open_count(&self) -> usize
        ensures count { result ≡ length self.now.kept }
        ensures opens { (forest : List Entry) (invoked : Kept) → IsForest forest →
            AreOpen false forest self.now.kept →
            length (opens_of false (open_calls_in forest invoked self.now.kept)) ≡ result }
    {
        self.kept.len()
    }

    /// Closes an invocation of the peer, if it is open: it was answered.
    pub fn close(&mut self, forest: &mut Forest, id: &i64)
        requires { AreOpen false forest.old self.old.kept }
        ensures closed { (invoked : Invoking) → calls_of forest.new invoked self.new.kept
            ≡ close false id.now (calls_of forest.old invoked self.old.kept) }
        ensures keeps { PerformerKeeps forest.old forest.new self.old self.new }
    {
        forest.hold_forest();
        let key = key_of(false, id);
        leave(&mut self.kept, forest, &key);
    }

    /// Forgets all open invocations of the peer; their keys are to be taken from the forest too.
    pub fn clear(&mut self)
        ensures { self.new ≡ record self.old { kept = [] } }
    {
        self.kept.clear();
    }

    /// Whether no more invocation is opened, and this is one that would be.
    fn is_full(&self, tables: &Tables, place: Option<u32>) -> bool
        ensures { result ≡ (nat_le most_open (length self.now.kept)
            && not (silent (placed (operation_at tables.now) place))) }
    {
        let many = self.open_count() >= 4096;
        let silent = is_silent_at(tables, place);
        many && !silent
    }

    /// The first problem of an invocation but that of its argument.
    fn early_problem(
        &self,
        own: &Invoker,
        tables: &Tables,
        id: &i64,
        linked: &Option<i64>,
        place: Option<u32>,
    ) -> Option<u8>
        ensures { result ≡ early_problem tables.now own.now.kept self.now.kept id.now linked.now
            place }
    {
        let duplicate = problem_if(called(&self.kept, id).is_some(), 0);
        let full = problem_if(self.is_full(tables, place), 3);
        let known = known_problem(own, tables, linked, place);
        first_problem(duplicate, first_problem(full, known))
    }

    /// The argument of an invocation, or its first problem.
    fn argument_or_first_problem(
        &self,
        own: &Invoker,
        syntax: Syntax,
        tables: &Tables,
        id: &i64,
        place: Option<u32>,
        head: &ApduHead,
    ) -> Result<ValueOrProblem, NoMemory>
        ensures found { IfOk result (λ found. (carried : Carried) →
            Carries syntax tables.now.types head.now.room
            (option_map argument_of (placed (operation_at tables.now) place)) head.now.rest carried
            → IsValueOrProblem (invoke_problem tables.now own.now.kept self.now.kept id.now
            head.now.linked place carried) (value_in carried) found) }
        ensures free { IfOk result (IsFree (early_problem tables.now own.now.kept self.now.kept
            id.now head.now.linked place)) }
    {
        match self.early_problem(own, tables, id, &head.linked, place) {
            Some(number) => Ok(ValueOrProblem::Wrong(number)),
            None => {
                let rest = &head.rest;
                let found = argument_or_problem(
                    self.alloc, syntax, tables, place, rest, head.room,
                )?;
                Ok(found)
            }
        }
    }

    /// Opens an invocation of the operation at this place, unless it is silent. Want of memory
    /// changes nothing.
    pub fn admit(
        &mut self,
        forest: &mut Forest,
        tables: &Tables,
        id: &i64,
        place: u32,
        linked: Option<i64>,
    ) -> Result<(), NoMemory>
        requires shut { called id.now self.old.kept ≡ None }
        requires linked { is_open_or_none (option_map (key_of true) linked) forest.old ≡ true }
        requires peer { AreOpen false forest.old self.old.kept }
        ensures admitted { OnOk result ((base : Base) (own : Invoking) → base.tables ≡ tables.now →
            calls_of forest.new own self.new.kept
            ≡ with_opened base (record {
              own = false;
              id = id.now;
              operation = place;
              context = self.old.context;
              parent = linked;
            })
            (calls_of forest.old own self.old.kept)) }
        ensures keeps { PerformerKeeps forest.old forest.new self.old self.new }
        ensures err { OnErr result ((self.new ≡ self.old) × (forest.new ≡ forest.old)) }
    {
        if is_silent_at(tables, Some(place)) {
            return Ok(());
        }
        let call = InvokedWith {
            operation: place,
            context: self.context,
        };
        let key = key_of(false, id);
        enter(&mut self.kept, forest, &key, call, linked)?;
        Ok(())
    }

    /// What becomes of an invocation without a problem.
    fn perform(
        &mut self,
        forest: &mut Forest,
        tables: &Tables,
        id: &i64,
        place: Option<u32>,
        linked: Option<i64>,
        argument: Option<Val>,
    ) -> Result<RoseTaken, NoMemory>
        requires shut { called id.now self.old.kept ≡ None }
        requires linked { is_open_or_none (option_map (key_of true) linked) forest.old ≡ true }
        requires peer { AreOpen false forest.old self.old.kept }
        ensures performed { IfOk result (λ taken. (base : Base) (own : Invoking) (carried : Carried)
            → base.tables ≡ tables.now → argument ≡ value_in carried →
            heard_with (calls_of forest.new own self.new.kept) taken
            ≡ invoked base (calls_of forest.old own self.old.kept) self.old.context id.now linked
            place carried) }
        ensures keeps { PerformerKeeps forest.old forest.new self.old self.new }
        ensures err { OnErr result ((self.new ≡ self.old) × (forest.new ≡ forest.old)) }
    {
        match place {
            None => Ok(invoke_rejected(id, 1)),
            Some(operation) => {
                self.admit(forest, tables, id, operation, linked)?;
                Ok(invoked(id, operation, linked, argument))
            }
        }
    }

    /// An invocation.
    fn take_invocation(
        &mut self,
        own: &Invoker,
        forest: &mut Forest,
        syntax: Syntax,
        tables: &Tables,
        head: ApduHead,
    ) -> Result<RoseTaken, NoMemory>
        requires kind { head.kind ≡ kinds.Invoke }
        requires own { AreOpen true forest.old own.now.kept }
        requires peer { AreOpen false forest.old self.old.kept }
        ensures heard { IfOk result (λ taken. Hears tables.now syntax self.old.context head
            (calls_of forest.old own.now self.old.kept) (calls_of forest.new own.now self.new.kept)
            taken) }
        ensures keeps { PerformerKeeps forest.old forest.new self.old self.new }
        ensures err { OnErr result ((self.new ≡ self.old) × (forest.new ≡ forest.old)) }
    {
        forest.hold_forest();
        let _count = self.kept.len();
        let Some(id) = &head.id else {
            return Ok(RoseTaken::BadReject);
        };
        let Some(code) = &head.code else {
            return Ok(RoseTaken::BadReject);
        };
        let place = tables.operation_with(code);
        match self.argument_or_first_problem(own, syntax, tables, id, place, &head)? {
            ValueOrProblem::Wrong(number) => Ok(invoke_rejected(id, number)),
            ValueOrProblem::Right(argument) => {
                let taken = self.perform(forest, tables, id, place, head.linked, argument)?;
                Ok(taken)
            }
        }
    }

    /// What becomes of an invocation (X.880 9.1): the first problem that holds is the reject's,
    /// else the user is told, and the invocation is open unless its operation is silent. The head
    /// was read in this syntax; the own keys of the forest are the open invocations of `own`, the
    /// others those of this side. Want of memory changes nothing.
    pub fn take(
        &mut self,
        own: &Invoker,
        forest: &mut Forest,
        syntax: Syntax,
        tables: &Tables,
        head: ApduHead,
    ) -> Result<RoseTaken, NoMemory>
        requires kind { is_invocation head.kind ≡ true }
        requires own { AreOpen true forest.old own.now.kept }
        requires peer { AreOpen false forest.old self.old.kept }
        ensures heard { IfOk result (λ taken. Hears tables.now syntax self.old.context head
            (calls_of forest.old own.now self.old.kept) (calls_of forest.new own.now self.new.kept)
            taken) }
        ensures keeps { PerformerKeeps forest.old forest.new self.old self.new }
        ensures err { OnErr result ((self.new ≡ self.old) × (forest.new ≡ forest.old)) }
    {
        self.take_invocation(own, forest, syntax, tables, head)
    }
}
