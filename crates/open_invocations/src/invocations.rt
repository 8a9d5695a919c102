//! The open invocations of an end and of its peer.

ghost use Rattle.std.specs.Prelude.{◌≡◌, ◌<◌, ◌≤◌, ◌+◌, ◌++◌, ◌∷◌, [], length, pos, true, false, is_some, None, IfOk, OnOk, OnErr};
ghost use Rattle.osi_base.specs.Limits.{last_invocation, most_open};
ghost use Rattle.rose_roles.specs.Hearing.{Hears};
ghost use Rattle.rose_roles.specs.end_rules.State.{opened_with, opens_of, close};
ghost use Rattle.rose_roles.specs.end_rules.Base.{Base};
ghost use Rattle.rose_roles.specs.end_rules.Hearing.{with_opened};
ghost use Rattle.open_invocations.specs.Invocations.{is_link, is_link_back, called_in, operation_in, SomeCarried};

use crate::listing::{called_at, open_calls_in};
use crate::open_call::OpenCall;
use linked_ops::Forest;
use osi_base::{NoMemory, Syntax};
use rose_roles::apdu_spelling_layer::{ApduHead, ApduKind};
use rose_roles::{InvokedWith, Invoker, Performer, RoseTaken};
use std::alloc::Global;
use std::marker::Model;
use stub_tables::Tables;

/// The open invocations of an end and of its peer, in order of opening, and how many this end made.
#[derive(Drop)]
pub struct Invocations {
    alloc: Global,
    forest: Forest,
    invoker: Invoker,
    performer: Performer,
}

impl Model for Invocations {
    ghost use Rattle.rose_roles.specs.end_rules.State.{Calls};
    ghost use Rattle.rose_roles.specs.Calls.{calls_of};
    ghost use Rattle.open_invocations.specs.Invocations.{AreKept};

    ghost Value = { Calls };

    ghost view = { λ i. calls_of i.forest i.invoker i.performer.kept };

    ghost invariant = { λ i. AreKept i.forest i.invoker i.performer.kept };
}

impl Invocations {
    /// No open invocations, and none made.
    pub fn new(alloc: Global) -> Invocations
        ensures { result ≡ record { opens = []; made = 0 } }
    {
        Invocations {
            alloc,
            forest: Forest::new(alloc),
            invoker: Invoker::new(alloc),
            performer: Performer::new(alloc),
        }
    }

    /// The operation of an open invocation of this end (own), or of its peer, as a place in the
    /// table of operations.
    pub fn operation(&self, own: bool, id: &i64) -> Option<u32>
        ensures { result ≡ operation_in (opened_with own id.now self.now.opens) }
    {
        match called_at(&self.invoker, &self.performer, own, id) {
            Some(called) => Some(called.operation),
            None => None,
        }
    }

    /// What was called by an open invocation of this end (own), or of its peer.
    pub fn called(&self, own: bool, id: &i64) -> Option<InvokedWith>
        ensures { result ≡ called_in (opened_with own id.now self.now.opens) }
    {
        called_at(&self.invoker, &self.performer, own, id)
    }

    /// Whether the invocation of this end (own), or of its peer, with this identifier is open.
    pub fn is_open(&self, own: bool, id: &i64) -> bool
        ensures { result ≡ is_some (opened_with own id.now self.now.opens) }
    {
        match self.operation(own, id) {
            Some(_) => true,
            None => false,
        }
    }

    /// How many own invocations are open.
    pub fn own_count(&self) -> usize
        ensures { result ≡ length (opens_of true self.now.opens) }
    {
        self.forest.hold_forest();
        self.invoker.open_count()
    }

    /// How many invocations of the peer are open.
    pub fn peer_count(&self) -> usize
        ensures { result ≡ length (opens_of false self.now.opens) }
    {
        self.forest.hold_forest();
        self.performer.open_count()
    }

    /// How many own invocations were made.
    pub fn made(&self) -> u32
        ensures is { result ≡ self.now.made }
        ensures most { result ≤ last_invocation }
    {
        self.invoker.made()
    }

    /// Opens the next own invocation of an operation, and answers its identifier. Want of memory
    /// changes nothing.
    pub fn open(
        &mut self,
        operation: u32,
        context: u32,
        linked: Option<i64>,
    ) -> Result<i64, NoMemory>
        requires numbers { self.old.made < last_invocation }
        requires room { length (opens_of true self.old.opens) < most_open }
        requires linked { is_link linked self.old.opens ≡ true }
        ensures id { IfOk result (λ id. id ≡ pos (self.old.made + 1)) }
        ensures opened { OnOk result (self.new
            ≡ record {
              opens = self.old.opens ++ record {
                own = true;
                id = pos (self.old.made + 1);
                operation = operation;
                context = context;
                parent = linked;
              } ∷ [];
              made = self.old.made + 1;
            }) }
        ensures err { OnErr result (self.new ≡ self.old) }
    {
        self.forest.hold_forest();
        let _count = self.invoker.open_count();
        let called = InvokedWith { operation, context };
        self.invoker.open(&mut self.forest, called, linked)
    }

    /// Counts an own invocation that is never open, and answers its identifier.
    pub fn count_silent(&mut self) -> i64
        requires { self.old.made < last_invocation }
        ensures id { result ≡ pos (self.old.made + 1) }
        ensures passed { self.new ≡ record self.old { made = self.old.made + 1 } }
    {
        self.invoker.count_silent()
    }

    /// Closes an invocation of the peer.
    pub fn close(&mut self, id: &i64)
        ensures { self.new ≡ close false id.now self.old }
    {
        self.performer.close(&mut self.forest, id);
    }

    /// Closes an invocation of this end.
    pub fn close_own(&mut self, id: &i64)
        ensures { self.new ≡ close true id.now self.old }
    {
        self.invoker.close(&mut self.forest, id);
    }

    /// Opens an invocation of the peer on a context, unless its operation is silent. Want of memory
    /// changes nothing.
    pub fn admit(
        &mut self,
        tables: &Tables,
        id: &i64,
        called: InvokedWith,
        linked: Option<i64>,
    ) -> Result<(), NoMemory>
        requires shut { opened_with false id.now self.old.opens ≡ None }
        requires linked { is_link_back linked self.old.opens ≡ true }
        ensures admitted { OnOk result ((base : Base) → base.tables ≡ tables.now →
            self.new ≡ with_opened base (record {
              own = false;
              id = id.now;
              operation = called.operation;
              context = called.context;
              parent = linked;
            }) self.old) }
        ensures err { OnErr result (self.new ≡ self.old) }
    {
        self.performer.set_context(called.context);
        self.performer
            .admit(&mut self.forest, tables, id, called.operation, linked)
    }

    /// What becomes of an APDU that came on a context in a syntax. Want of memory changes nothing.
    pub fn take(
        &mut self,
        tables: &Tables,
        syntax: Syntax,
        context: u32,
        head: ApduHead,
    ) -> Result<RoseTaken, NoMemory>
        requires { SomeCarried tables.now syntax head }
        ensures heard { IfOk result (λ taken. Hears tables.now syntax context head self.old self.new
            taken) }
        ensures err { OnErr result (self.new ≡ self.old) }
    {
        match head.kind {
            ApduKind::Invoke => {
                self.performer.set_context(context);
                self.performer
                    .take(&self.invoker, &mut self.forest, syntax, tables, head)
            }
            ApduKind::Result | ApduKind::Error | ApduKind::Reject => {
                self.invoker.take(&mut self.forest, syntax, tables, head)
            }
        }
    }

    /// Forgets all open invocations.
    pub fn clear(&mut self)
        ensures { self.new ≡ record self.old { opens = [] } }
    {
        self.forest = Forest::new(self.alloc);
        self.invoker.clear();
        self.performer.clear();
    }

    /// The open invocations in order of opening.
    pub fn open_calls(&self) -> Result<Vec<OpenCall>, NoMemory>
        ensures { IfOk result (λ opens. opens.items ≡ self.now.opens) }
    {
        let entries = self.forest.entries()?;
        open_calls_in(
            self.alloc,
            entries.as_slice(),
            &self.invoker,
            &self.performer,
        )
    }
}
