//! The names and codes of operations and errors that were seen so far.

ghost use Rattle.std.specs.Prelude.{◌≡◌, ◌||◌, false, not, IfOk, OnOk};
ghost use Rattle.std.specs.Cmp.Lexicographic.{pointwise};
ghost use Rattle.std.specs.Prelude.{nat_eq};
ghost use Rattle.stub_tables.specs.Codes.{same_code};
ghost use Rattle.table_file.specs.Known.{has_code, has_name};

use indexmap::IndexSet;
use osi_base::{Name, NoMemory};
use std::alloc::Global;
use stub_tables::Code;

/// Codes of operations, or of errors.
#[derive(Drop)]
pub struct Codes {
    alloc: Global,
    locals: IndexSet<i64>,
    globals: IndexSet<Vec<u32>>,
}

impl Codes {
    /// No codes.
    pub fn new(alloc: Global) -> Codes
        ensures { (code : _) → has_code result code ≡ false }
    {
        Codes {
            alloc,
            locals: IndexSet::new(alloc),
            globals: IndexSet::new(alloc),
        }
    }

    /// Sees a code; whether it is seen for the first time.
    pub fn see(&mut self, code: &Code) -> Result<bool, NoMemory>
        ensures first { IfOk result (λ is_new. is_new ≡ not (has_code self.old code.now)) }
        ensures seen { OnOk result ((other : _) → has_code self.new other
            ≡ (same_code code.now other || has_code self.old other)) }
    {
        match code {
            Code::Local(number) => Ok(self.locals.insert(*number)?),
            Code::Global(oid) => {
                let arcs = Vec::from_slice(self.alloc, oid.arcs())?;
                Ok(self.globals.insert(arcs)?)
            }
        }
    }
}

/// Names of operations and errors.
#[derive(Drop)]
pub struct Names {
    alloc: Global,
    names: IndexSet<Vec<u8>>,
}

impl Names {
    /// No names.
    pub fn new(alloc: Global) -> Names
        ensures { (name : _) → has_name result name ≡ false }
    {
        Names {
            alloc,
            names: IndexSet::new(alloc),
        }
    }

    /// Sees a name; whether it is seen for the first time.
    pub fn see(&mut self, name: &Name) -> Result<bool, NoMemory>
        ensures first { IfOk result (λ is_new. is_new ≡ not (has_name self.old name.now)) }
        ensures seen { OnOk result ((other : _) → has_name self.new other
            ≡ (pointwise nat_eq name.now other || has_name self.old other)) }
    {
        let octets = Vec::from_slice(self.alloc, name.as_bytes())?;
        Ok(self.names.insert(octets)?)
    }
}
