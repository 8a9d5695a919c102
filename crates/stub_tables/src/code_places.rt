//! The places of rows by their codes, so that none is sought row by row.

ghost use Rattle.std.specs.Prelude.{◌≡◌, Some, None, OnOk, OnErr, List, ℕ, if◌then◌else◌};
ghost use Rattle.std.specs.Prelude.{ℤ};
ghost use Rattle.std.specs.Ordering.{int_eq};
ghost use Rattle.std.specs.Prelude.{nat_eq};
ghost use Rattle.std.specs.Cmp.Lexicographic.{pointwise};
ghost use Rattle.std.specs.Option.{option_or};
ghost use Rattle.stub_tables.specs.Codes.{same_code};
ghost use Rattle.stub_tables.specs.Places.{local_place, global_place, place_in};

use crate::operation::Code;
use osi_base::NoMemory;
use std::alloc::Global;
use std::collections::BTreeMap;

/// The place of each code: of local codes by their numbers, of global ones by their arcs.
#[derive(Debug, Drop)]
pub(crate) struct CodePlaces {
    pub(crate) alloc: Global,
    pub(crate) locals: BTreeMap<i64, usize>,
    pub(crate) globals: BTreeMap<Vec<u32>, usize>,
}

/// Gives a local code its place.
fn put_local(locals: &mut BTreeMap<i64, usize>, number: &i64, place: usize) -> Result<(), NoMemory>
    ensures ok { OnOk result ((q : ℤ) → local_place locals.new.entries q
        ≡ (if int_eq number.now q then Some place else local_place locals.old.entries q)) }
    ensures err { OnErr result (locals.new.entries ≡ locals.old.entries) }
{
    match locals.insert(*number, place) {
        Ok(_) => Ok(()),
        Err(_) => Err(NoMemory),
    }
}

/// Gives a global code its place.
fn put_global(
    globals: &mut BTreeMap<Vec<u32>, usize>,
    alloc: Global,
    arcs: &[u32],
    place: usize,
) -> Result<(), NoMemory>
    ensures ok { OnOk result ((q : List ℕ) → global_place globals.new.entries q
        ≡ (if pointwise nat_eq arcs.now q then Some place else global_place globals.old.entries
        q)) }
    ensures err { OnErr result (globals.new.entries ≡ globals.old.entries) }
{
    let key = Vec::from_slice(alloc, arcs)?;
    match globals.insert(key, place) {
        Ok(_) => Ok(()),
        Err(_) => Err(NoMemory),
    }
}

impl CodePlaces {
    /// No places.
    pub(crate) fn new(alloc: Global) -> CodePlaces
        ensures { (code : Code) → place_in result code ≡ None }
    {
        CodePlaces {
            alloc,
            locals: BTreeMap::new(alloc),
            globals: BTreeMap::new(alloc),
        }
    }

    /// The place of a code.
    pub(crate) fn place(&self, code: &Code) -> Option<usize>
        ensures { result ≡ place_in self.now code.now }
    {
        match code {
            Code::Local(number) => self.locals.get(number).copied(),
            Code::Global(oid) => self.globals.get(oid.arcs()).copied(),
        }
    }

    /// Gives a code its place, unless it has one. Want of memory changes nothing.
    pub(crate) fn put(&mut self, code: &Code, place: usize) -> Result<(), NoMemory>
        ensures ok { OnOk result ((q : Code) → place_in self.new q ≡ option_or (place_in self.old q)
            (if same_code code.now q then Some place else None)) }
        ensures err { OnErr result ((q : Code) → place_in self.new q ≡ place_in self.old q) }
    {
        if self.place(code).is_some() {
            return Ok(());
        }
        match code {
            Code::Local(number) => put_local(&mut self.locals, number, place),
            Code::Global(oid) => put_global(&mut self.globals, self.alloc, oid.arcs(), place),
        }
    }
}
