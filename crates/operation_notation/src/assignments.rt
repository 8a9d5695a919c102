//! Parsing modules and their assignments.

ghost use Rattle.std.specs.Prelude.{◌≡◌, ◌≤◌, codes, length};
ghost use Rattle.operation_notation.specs.GrammarTypes.{narrow};
ghost use Rattle.operation_notation.specs.Reading.{Gives, behind, Shortens};
ghost use Rattle.operation_notation.specs.ReadingModules.{typed_at, opens_at, operation_body_at, error_body_at, body_at, valued_at, assignment_at, assignments_at, imported_at, listed_imports_at, maybe_oid_at, imports_at, maybe_imports_at, tagging_at, heading_at, module_at, whole_at};

use crate::cursor::Cursor;
use crate::fault::Refusal;
use crate::module::{Assigned, Assignment, Assignments, ModuleText};
use notation_tokens::{Located, Place};
use osi_base::{ListOf, Oid};
use std::alloc::Global;

/// What stands before a module's `BEGIN`.
#[derive(Debug, Drop)]
pub(crate) struct Heading {
    pub name: Located,
    pub name_oid: Oid,
    pub implicit: bool,
}

impl<'t> Cursor<'t> {
    /// An assignment of a type.
    #[tactic(auto, unfolding(crate::specs::ReadingModules::typed_at))]
    fn typed(&mut self, alloc: Global) -> Result<Assignment, Refusal>
        ensures gives { Gives result self.new (typed_at narrow self.old) }
        ensures takes { Shortens result self.old self.new }
    {
        let name = self.type_name(alloc)?;
        self.expect(b"::=")?;
        let of = self.outer_type(alloc)?;
        Ok(Assignment {
            name,
            body: Assigned::Typed(of),
        })
    }

    /// A word, `::=` and an opening brace.
    #[tactic(auto, unfolding(crate::specs::ReadingModules::opens_at))]
    fn opens(&mut self, word: &[u8]) -> Result<Place, Refusal>
        ensures gives { Gives result self.new (opens_at word.now self.old) }
        ensures takes { Shortens result self.old self.new }
    {
        self.expect(word)?;
        self.expect(b"::=")?;
        self.expect(b"{")
    }

    /// What follows the name of an operation.
    #[tactic(auto, unfolding(crate::specs::ReadingModules::operation_body_at))]
    fn operation_body(&mut self, alloc: Global) -> Result<Assigned, Refusal>
        ensures gives { Gives result self.new (operation_body_at narrow self.old) }
        ensures takes { Shortens result self.old self.new }
    {
        self.opens(b"OPERATION")?;
        let operation = self.operation(alloc)?;
        self.expect(b"}")?;
        Ok(Assigned::Operation(operation))
    }

    /// What follows the name of an error.
    #[tactic(auto, unfolding(crate::specs::ReadingModules::error_body_at))]
    fn error_body(&mut self, alloc: Global) -> Result<Assigned, Refusal>
        ensures gives { Gives result self.new (error_body_at narrow self.old) }
        ensures takes { Shortens result self.old self.new }
    {
        self.opens(b"ERROR")?;
        let error = self.error(alloc)?;
        self.expect(b"}")?;
        Ok(Assigned::Error(error))
    }

    /// What follows the name of an operation or error.
    #[tactic(auto, unfolding(crate::specs::ReadingModules::body_at))]
    fn body(&mut self, alloc: Global) -> Result<Assigned, Refusal>
        ensures gives { Gives result self.new (body_at narrow self.old) }
        ensures takes { Shortens result self.old self.new }
    {
        if self.is(b"OPERATION") {
            self.operation_body(alloc)
        } else {
            self.error_body(alloc)
        }
    }

    /// An assignment of an operation or error.
    #[tactic(auto, unfolding(crate::specs::ReadingModules::valued_at))]
    fn valued(&mut self, alloc: Global) -> Result<Assignment, Refusal>
        ensures gives { Gives result self.new (valued_at narrow self.old) }
        ensures takes { Shortens result self.old self.new }
    {
        let name = self.value_name(alloc)?;
        let body = self.body(alloc)?;
        Ok(Assignment { name, body })
    }

    /// An assignment.
    #[tactic(auto, unfolding(crate::specs::ReadingModules::assignment_at))]
    fn assignment(&mut self, alloc: Global) -> Result<Assignment, Refusal>
        ensures gives { Gives result self.new (assignment_at narrow self.old) }
        ensures takes { Shortens result self.old self.new }
    {
        if self.starts_name() {
            self.valued(alloc)
        } else {
            self.typed(alloc)
        }
    }

    /// The assignments up to the module's end.
    #[tactic(auto, using(crate::proofs::Loops::goes, crate::proofs::Loops::starts), unfolding(crate::specs::ReadingModules::assignments_at))]
    fn assignments(&mut self, alloc: Global) -> Result<Assignments, Refusal>
        ensures gives { Gives result self.new (assignments_at narrow self.old) }
        ensures keeps { length self.new ≤ length self.old }
    {
        let mut assignments = ListOf::new(alloc);
        while self.goes_on(b"END") {
            assignments.push(self.assignment(alloc)?)?;
        }
        Ok(assignments)
    }

    /// An information object class that may be imported.
    #[tactic(auto, unfolding(crate::specs::ReadingModules::imported_at))]
    fn imported(&mut self) -> Result<Place, Refusal>
        ensures gives { Gives result self.new (imported_at narrow self.old) }
        ensures takes { Shortens result self.old self.new }
    {
        if self.is(b"OPERATION") {
            self.expect(b"OPERATION")
        } else if self.is(b"ERROR") {
            self.expect(b"ERROR")
        } else {
            Err(Refusal::Fault(self.class_kind()))
        }
    }

    /// A class behind a comma.
    fn next_imported(&mut self) -> Result<Place, Refusal>
        ensures gives { Gives result self.new (behind (codes ",") (imported_at narrow) self.old) }
        ensures takes { Shortens result self.old self.new }
    {
        self.expect(b",")?;
        self.imported()
    }

    /// The imported classes, parted by commas.
    #[tactic(auto, using(crate::proofs::Loops::goes), unfolding(crate::specs::ReadingModules::listed_imports_at))]
    fn listed_imports(&mut self) -> Result<Place, Refusal>
        ensures gives { Gives result self.new (listed_imports_at narrow self.old) }
        ensures takes { Shortens result self.old self.new }
    {
        let first = self.imported()?;
        while self.is(b",") {
            self.next_imported()?;
        }
        Ok(first)
    }

    /// An object identifier, or nothing.
    #[tactic(auto, unfolding(crate::specs::ReadingModules::maybe_oid_at))]
    fn maybe_oid(&mut self, alloc: Global) -> Result<Option<Oid>, Refusal>
        ensures gives { Gives result self.new (maybe_oid_at self.old) }
        ensures keeps { length self.new ≤ length self.old }
    {
        if self.is(b"{") {
            Ok(Some(self.oid(alloc)?))
        } else {
            Ok(None)
        }
    }

    /// The imports, which aren't kept.
    #[tactic(auto, unfolding(crate::specs::ReadingModules::imports_at))]
    fn imports(&mut self, alloc: Global) -> Result<Place, Refusal>
        ensures gives { Gives result self.new (imports_at narrow self.old) }
        ensures takes { Shortens result self.old self.new }
    {
        self.expect(b"IMPORTS")?;
        self.listed_imports()?;
        self.expect(b"FROM")?;
        let _from = self.type_name(alloc)?;
        let _oid = self.maybe_oid(alloc)?;
        self.expect(b";")
    }

    /// The imports, or nothing.
    #[tactic(auto, unfolding(crate::specs::ReadingModules::maybe_imports_at))]
    fn maybe_imports(&mut self, alloc: Global) -> Result<Option<Place>, Refusal>
        ensures gives { Gives result self.new (maybe_imports_at narrow self.old) }
        ensures keeps { length self.new ≤ length self.old }
    {
        if self.is(b"IMPORTS") {
            Ok(Some(self.imports(alloc)?))
        } else {
            Ok(None)
        }
    }

    /// Whether tags are implicit unless they say otherwise.
    #[tactic(auto, unfolding(crate::specs::ReadingModules::tagging_at))]
    fn tagging(&mut self) -> Result<bool, Refusal>
        ensures gives { Gives result self.new (tagging_at self.old) }
        ensures keeps { length self.new ≤ length self.old }
    {
        if self.is(b"EXPLICIT") {
            self.expect(b"EXPLICIT")?;
            self.expect(b"TAGS")?;
            Ok(false)
        } else if self.is(b"IMPLICIT") {
            self.expect(b"IMPLICIT")?;
            self.expect(b"TAGS")?;
            Ok(true)
        } else {
            Ok(false)
        }
    }

    /// What stands before a module's `BEGIN`.
    #[tactic(auto, unfolding(crate::specs::ReadingModules::heading_at))]
    fn heading(&mut self, alloc: Global) -> Result<Heading, Refusal>
        ensures gives { Gives result self.new (heading_at self.old) }
        ensures takes { Shortens result self.old self.new }
    {
        let name = self.type_name(alloc)?;
        let name_oid = self.oid(alloc)?;
        self.expect(b"DEFINITIONS")?;
        let implicit = self.tagging()?;
        self.expect(b"::=")?;
        Ok(Heading {
            name,
            name_oid,
            implicit,
        })
    }

    /// A module.
    #[tactic(auto, unfolding(crate::specs::ReadingModules::module_at))]
    fn module(&mut self, alloc: Global) -> Result<ModuleText, Refusal>
        ensures gives { Gives result self.new (module_at narrow self.old) }
        ensures takes { Shortens result self.old self.new }
    {
        let heading = self.heading(alloc)?;
        self.expect(b"BEGIN")?;
        self.maybe_imports(alloc)?;
        let assignments = self.assignments(alloc)?;
        self.expect(b"END")?;
        Ok(ModuleText {
            name: heading.name,
            name_oid: heading.name_oid,
            implicit: heading.implicit,
            assignments,
        })
    }

    /// A module with no token behind it.
    #[tactic(auto, unfolding(crate::specs::ReadingModules::whole_at))]
    pub fn whole(&mut self, alloc: Global) -> Result<ModuleText, Refusal>
        ensures gives { Gives result self.new (whole_at narrow self.old) }
        ensures takes { Shortens result self.old self.new }
    {
        let module = self.module(alloc)?;
        if self.is_done() {
            Ok(module)
        } else {
            Err(Refusal::Fault(self.kind()))
        }
    }
}
