//! Names and codes that were seen.

ghost use Rattle.std.specs.Prelude.{◌≡◌, [], IfOk, OnOk};
ghost use Rattle.module_faults.specs.Met.{has_list, with_list, has_number, with_number, no_codes, has_code, with_code};

use indexmap::IndexSet;
use operation_notation::{CodeText, ItemText};
use osi_base::{Name, NoMemory};
use std::alloc::Global;
use std::marker::Model;

/// Names that were seen.
#[derive(Drop)]
pub(crate) struct SeenNames<'m> {
    names: IndexSet<&'m str>,
}

impl<'m> Model for SeenNames<'m> {
    ghost use Rattle.std.specs.Prelude.{ℕ, List, map};

    ghost Value = { List (List ℕ) };

    ghost view = { λ s. map (λ k. k.now) s.names.keys };
}

impl<'m> SeenNames<'m> {
    /// No names were seen.
    pub fn new(alloc: Global) -> SeenNames<'m>
        ensures { result ≡ [] }
    {
        SeenNames {
            names: IndexSet::new(alloc),
        }
    }

    /// Sees a name; whether it was seen before.
    pub fn see(&mut self, name: &'m Name) -> Result<bool, NoMemory>
        ensures was { IfOk result (λ was. was ≡ has_list self.old name.now) }
        ensures now { OnOk result (self.new ≡ with_list self.old name.now) }
    {
        Ok(!self.names.insert(name.as_str())?)
    }
}

/// Sees the number of an item; whether it was seen before.
pub(crate) fn see_number(numbers: &mut IndexSet<i64>, item: &ItemText) -> Result<bool, NoMemory>
    ensures was { IfOk result (λ was. was ≡ has_number numbers.old.keys item.now.number) }
    ensures now { OnOk result (numbers.new.keys ≡ with_number numbers.old.keys item.now.number) }
{
    Ok(!numbers.insert(item.number)?)
}

/// Codes that were seen.
#[derive(Drop)]
pub(crate) struct SeenCodes<'m> {
    locals: IndexSet<i64>,
    globals: IndexSet<&'m [u32]>,
}

impl<'m> Model for SeenCodes<'m> {
    ghost use Rattle.std.specs.Prelude.{map};
    ghost use Rattle.module_faults.specs.Met.{Codes};

    ghost Value = { Codes };

    ghost view = { λ s. record {
      locals = s.locals.keys;
      globals = map (λ k. k.now) s.globals.keys;
    } };
}

impl<'m> SeenCodes<'m> {
    /// No codes were seen.
    pub fn new(alloc: Global) -> SeenCodes<'m>
        ensures { result ≡ no_codes }
    {
        SeenCodes {
            locals: IndexSet::new(alloc),
            globals: IndexSet::new(alloc),
        }
    }

    /// Sees a code; whether it was seen before.
    pub fn see(&mut self, code: &'m CodeText) -> Result<bool, NoMemory>
        ensures was { IfOk result (λ was. was ≡ has_code self.old code.now) }
        ensures now { OnOk result (self.new ≡ with_code self.old code.now) }
    {
        match (code.local, &code.global) {
            (Some(number), _) => Ok(!self.locals.insert(number)?),
            (None, Some(oid)) => Ok(!self.globals.insert(oid.arcs())?),
            (None, None) => Ok(false),
        }
    }
}
