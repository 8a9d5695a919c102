//! The side that invokes: what becomes of outcomes and rejects.

ghost use Rattle.std.specs.Prelude.{◌≡◌, ◌<◌, ◌≤◌, ◌+◌, ℕ, ℤ, pos, List, [], ◌∷◌, ◌++◌, length, None, Some, true, false, IfOk, OnOk, is_some};
ghost use Rattle.std.specs.Option.{option_map};
ghost use Rattle.std.specs.Ordering.{int_cmp};
ghost use Rattle.osi_base.specs.Limits.{last_invocation, most_open};
ghost use Rattle.linked_ops.specs.Entries.{Entry, IsForest, is_open, is_open_or_none};
ghost use Rattle.apdu_spelling.specs.declared.head.ApduKind.TheVariants as kinds;
ghost use Rattle.stub_tables.specs.Lookup.{error_with};
ghost use Rattle.end_wire.specs.end_rules.Base.{Base, ResultHead, ErrorHead, RejectHead};
ghost use Rattle.end_wire.specs.end_rules.State.{close, opens_of};
ghost use Rattle.end_wire.specs.end_rules.Hearing.{hear, is_of_invocation};
ghost use Rattle.rose_roles.specs.Heads.{is_invocation, reject_by, Carries, use_by, parameter_placed};
ghost use Rattle.rose_roles.specs.Hearing.{Hears, HearsHead, heard_with};
ghost use Rattle.rose_roles.specs.Calls.{Kept, Invoking, called, key_of, AreOpen, calls_of, open_call, open_calls_in, KeepsOpen, InvokerKeeps};

use crate::apdu_problems::{error_or_problem, result_or_problem};
use crate::apdu_taken::{
    RoseTaken, error_taken, is_of_invocation, own_rejected, reject_with, result_taken,
};
use crate::invoked_with::InvokedWith;
use crate::opening::{called, enter, key_of, leave, own_key};
use apdu_spelling::{ApduHead, ApduKind};
use linked_ops::Forest;
use osi_base::{NoMemory, Problem, ProblemKind, Syntax};
use std::alloc::Global;
use std::collections::BTreeMap;
use std::marker::Model;
use stub_tables::{Code, Tables};

/// The own invocations of an end: those that are open, each with its operation and context, and how
/// many were made. Their keys stand in the forest.
#[derive(Drop)]
pub struct Invoker {
    alloc: Global,
    kept: BTreeMap<i64, InvokedWith>,
    made: u32,
}

impl Model for Invoker {
    ghost use Rattle.rose_roles.specs.Calls.{Invoking};

    ghost Value = { Invoking };

    ghost view = { λ i. record { kept = i.kept.entries; made = i.made } };
}

impl Invoker {
    /// An end that has made no invocation yet.
    pub fn new(alloc: Global) -> Invoker
        ensures { result ≡ record { kept = []; made = 0 } }
    {
        Invoker {
            alloc,
            kept: BTreeMap::new(alloc),
            made: 0,
        }
    }

    /// How many own invocations are open; so many keys of this end stand in the forest.
    pub fn open_count(&self) -> usize
        ensures count { result ≡ length self.now.kept }
        ensures opens { (forest : List Entry) (performed : Kept) → IsForest forest →
            AreOpen true forest self.now.kept →
            length (opens_of true (open_calls_in forest self.now.kept performed)) ≡ result }
    {
        self.kept.len()
    }

    /// How many invocations were made, silent ones too.
    pub fn made(&self) -> u32
        ensures { result ≡ self.now.made }
    {
        self.made
    }

    /// Opens the next invocation, under an open invocation of the peer or as a root, and answers
    /// its identifier: the k-th invocation of an end has the identifier k (at most 2,147,483,647).
    /// At most 4,096 own invocations are open. Want of memory changes nothing.
    pub fn open(
        &mut self,
        forest: &mut Forest,
        called: InvokedWith,
        linked: Option<i64>,
    ) -> Result<i64, NoMemory>
        requires numbers { self.old.made < last_invocation }
        requires room { length self.old.kept < most_open }
        requires fresh { is_open (key_of true (pos (self.old.made + 1))) forest.old ≡ false }
        requires linked { is_open_or_none (option_map (key_of false) linked) forest.old ≡ true }
        requires own { AreOpen true forest.old self.old.kept }
        ensures id { IfOk result (λ id. id ≡ pos (self.old.made + 1)) }
        ensures opened { OnOk result ((performed : Kept) → calls_of forest.new self.new performed
            ≡ record {
              opens = (calls_of forest.old self.old performed).opens
                  ++ record {
                    own = true;
                    id = pos (self.old.made + 1);
                    operation = called.operation;
                    context = called.context;
                    parent = linked;
                  } ∷ [];
              made = self.old.made + 1;
            }) }
        ensures keeps { InvokerKeeps forest.old forest.new self.old self.new result }
    {
        let made = self.made + 1;
        let key = own_key(made);
        enter(&mut self.kept, forest, &key, called, linked)?;
        self.made = made;
        Ok(key.id)
    }

    /// Counts an invocation that is never open, and answers its identifier.
    pub fn count_silent(&mut self) -> i64
        requires { self.old.made < last_invocation }
        ensures id { result ≡ pos (self.old.made + 1) }
        ensures passed { self.new ≡ record self.old { made = self.old.made + 1 } }
    {
        self.made += 1;
        own_key(self.made).id
    }

    /// Forgets all open invocations; their keys are to be taken from the forest too.
    pub fn clear(&mut self)
        ensures { self.new ≡ record self.old { kept = [] } }
    {
        self.kept.clear();
    }

    /// What is called under an identifier, where it is open.
    pub fn called(&self, id: &i64) -> Option<InvokedWith>
        ensures { result ≡ called id.now self.now.kept }
    {
        called(&self.kept, id)
    }

    /// Closes an own invocation, if it is open.
    pub fn close(&mut self, forest: &mut Forest, id: &i64)
        requires { AreOpen true forest.old self.old.kept }
        ensures closed { (performed : Kept) → calls_of forest.new self.new performed
            ≡ close true id.now (calls_of forest.old self.old performed) }
        ensures open { KeepsOpen true forest.old forest.new self.new.kept }
    {
        forest.hold_forest();
        let key = key_of(true, id);
        leave(&mut self.kept, forest, &key);
    }

    /// A result.
    fn take_result(
        &mut self,
        forest: &mut Forest,
        syntax: Syntax,
        tables: &Tables,
        head: ApduHead,
    ) -> Result<RoseTaken, NoMemory>
        requires kind { head.kind ≡ kinds.Result }
        requires own { AreOpen true forest.old self.old.kept }
        ensures heard { IfOk result (λ taken. (performed : Kept) (context : ℕ) →
            Hears tables.now syntax context head (calls_of forest.old self.old performed)
            (calls_of forest.new self.new performed) taken) }
        ensures keeps { InvokerKeeps forest.old forest.new self.old self.new result }
    {
        let Some(id) = &head.id else {
            return Ok(RoseTaken::BadReject);
        };
        match self.called(id) {
            None => Ok(reject_with(head.id, ProblemKind::Result, 0)),
            Some(call) => {
                let taken = self.end_result(forest, syntax, tables, id, call, &head)?;
                Ok(taken)
            }
        }
    }

    /// A result of an open invocation.
    fn end_result(
        &mut self,
        forest: &mut Forest,
        syntax: Syntax,
        tables: &Tables,
        id: &i64,
        call: InvokedWith,
        head: &ApduHead,
    ) -> Result<RoseTaken, NoMemory>
        requires call { called id.now self.old.kept ≡ Some call }
        requires own { AreOpen true forest.old self.old.kept }
        ensures heard { IfOk result (λ taken. (performed : Kept) (context : ℕ) →
            HearsHead tables.now context (ResultHead id.now head.now.code)
            (Carries syntax tables.now.types head.now.room
            (use_by tables.now kinds.Result head.now.code) head.now.rest)
            (calls_of forest.old self.old performed) (calls_of forest.new self.new performed)
            taken) }
        ensures keeps { InvokerKeeps forest.old forest.new self.old self.new result }
    {
        let found = result_or_problem(
            self.alloc,
            syntax,
            tables,
            call.operation,
            &head.code,
            &head.rest,
            head.room,
        )?;
        self.close(forest, id);
        Ok(result_taken(id, found))
    }

    /// An error.
    fn take_error(
        &mut self,
        forest: &mut Forest,
        syntax: Syntax,
        tables: &Tables,
        head: ApduHead,
    ) -> Result<RoseTaken, NoMemory>
        requires kind { head.kind ≡ kinds.Error }
        requires own { AreOpen true forest.old self.old.kept }
        ensures heard { IfOk result (λ taken. (performed : Kept) (context : ℕ) →
            Hears tables.now syntax context head (calls_of forest.old self.old performed)
            (calls_of forest.new self.new performed) taken) }
        ensures keeps { InvokerKeeps forest.old forest.new self.old self.new result }
    {
        let Some(id) = &head.id else {
            return Ok(RoseTaken::BadReject);
        };
        let Some(code) = &head.code else {
            return Ok(RoseTaken::BadReject);
        };
        match self.called(id) {
            None => Ok(reject_with(head.id, ProblemKind::Error, 0)),
            Some(call) => {
                let taken = self.end_error(forest, syntax, tables, id, call, code, &head)?;
                Ok(taken)
            }
        }
    }

    /// An error of an open invocation.
    fn end_error(
        &mut self,
        forest: &mut Forest,
        syntax: Syntax,
        tables: &Tables,
        id: &i64,
        call: InvokedWith,
        code: &Code,
        head: &ApduHead,
    ) -> Result<RoseTaken, NoMemory>
        requires call { called id.now self.old.kept ≡ Some call }
        requires own { AreOpen true forest.old self.old.kept }
        ensures heard { IfOk result (λ taken. (performed : Kept) (context : ℕ) →
            HearsHead tables.now context (ErrorHead id.now code.now)
            (Carries syntax tables.now.types head.now.room
            (parameter_placed tables.now (error_with tables.now code.now)) head.now.rest)
            (calls_of forest.old self.old performed) (calls_of forest.new self.new performed)
            taken) }
        ensures keeps { InvokerKeeps forest.old forest.new self.old self.new result }
    {
        let error = tables.error_with(code);
        let found = error_or_problem(
            self.alloc,
            syntax,
            tables,
            call.operation,
            error,
            &head.rest,
            head.room,
        )?;
        self.close(forest, id);
        Ok(error_taken(id, error, found))
    }

    /// A reject: one of an invoke problem closes the own invocation that it names.
    fn take_reject(
        &mut self,
        forest: &mut Forest,
        id: Option<i64>,
        problem: Option<Problem>,
    ) -> RoseTaken
        requires { AreOpen true forest.old self.old.kept }
        ensures heard { (performed : Kept) (context : ℕ) (base : Base) →
            heard_with (calls_of forest.new self.new performed) result
            ≡ hear base (calls_of forest.old self.old performed) context (reject_by id problem) }
        ensures open { KeepsOpen true forest.old forest.new self.new.kept }
    {
        let Some(problem) = problem else {
            return RoseTaken::BadReject;
        };
        if is_of_invocation(problem.kind) {
            return self.end_rejected(forest, id, problem);
        }
        RoseTaken::RejectTaken { id, problem }
    }

    /// A reject of an invocation, which closes the one that it names, if it is open.
    fn end_rejected(&mut self, forest: &mut Forest, id: Option<i64>, problem: Problem) -> RoseTaken
        requires kind { is_of_invocation problem.kind ≡ true }
        requires own { AreOpen true forest.old self.old.kept }
        ensures heard { (performed : Kept) (context : ℕ) (base : Base) →
            heard_with (calls_of forest.new self.new performed) result
            ≡ hear base (calls_of forest.old self.old performed) context (RejectHead id problem) }
        ensures open { KeepsOpen true forest.old forest.new self.new.kept }
    {
        let Some(named) = &id else {
            return RoseTaken::RejectTaken { id, problem };
        };
        match self.called(named) {
            None => RoseTaken::RejectTaken { id, problem },
            Some(_) => {
                self.close(forest, named);
                own_rejected(named, problem)
            }
        }
    }

    /// What becomes of a result, an error or a reject (X.880 9.2 to 9.4): the first problem that
    /// holds is the reject's, else the user is told. The head was read in this syntax; the own keys
    /// of the forest are the open invocations of this side. Want of memory changes nothing.
    pub fn take(
        &mut self,
        forest: &mut Forest,
        syntax: Syntax,
        tables: &Tables,
        head: ApduHead,
    ) -> Result<RoseTaken, NoMemory>
        requires kind { is_invocation head.kind ≡ false }
        requires own { AreOpen true forest.old self.old.kept }
        ensures heard { IfOk result (λ taken. (performed : Kept) (context : ℕ) →
            Hears tables.now syntax context head (calls_of forest.old self.old performed)
            (calls_of forest.new self.new performed) taken) }
        ensures keeps { InvokerKeeps forest.old forest.new self.old self.new result }
    {
        match head.kind {
            ApduKind::Result => self.take_result(forest, syntax, tables, head),
            ApduKind::Error => self.take_error(forest, syntax, tables, head),
            ApduKind::Reject => Ok(self.take_reject(forest, head.id, head.problem)),
            ApduKind::Invoke => Ok(RoseTaken::BadReject),
        }
    }
}
