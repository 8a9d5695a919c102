//! Compiling a module.

ghost use Rattle.std.specs.Prelude.{◌≡◌, IfOk, IfErr};
ghost use Rattle.module_compiler.specs.declared.fault.TableFault.TheVariants.{NoMemory as no_room};
ghost use Rattle.module_compiler.specs.Tables.{AreTablesOf};
ghost use Rattle.module_compiler.specs.Refusals.{HasNoFault, IsRefusedBy};

use crate::fault::TableFault;
use crate::module_tables::{Whole, tabled};
use crate::own_codes::{errors_have_own_codes, operations_have_own_codes};
use crate::scope::Scope;
use module_faults::least_fault;
use operation_notation::ModuleText;
use osi_base::Copied;
use std::alloc::Global;
use stub_tables::Tables;

/// The tables of rows, where each operation and each error has a code of its own.
fn tables(alloc: Global, text: &ModuleText, whole: Whole) -> Result<Tables, TableFault>
    ensures made { IfOk result (λ tables. (tables.name ≡ text.now.name.text) ×
        (tables.name_oid ≡ text.now.name_oid) ×
        (record { types = tables.types; operations = tables.operations; errors = tables.errors }
        ≡ whole)) }
    ensures no_memory { IfErr result (IsRefusedBy text.now) }
{
    let Ok(true) = operations_have_own_codes(alloc, whole.operations.as_slice()) else {
        return Err(TableFault::NoMemory);
    };
    let Ok(true) = errors_have_own_codes(alloc, whole.errors.as_slice()) else {
        return Err(TableFault::NoMemory);
    };
    if whole.operations.len() > u32::MAX as usize || whole.errors.len() > u32::MAX as usize {
        return Err(TableFault::NoMemory);
    }
    Ok(Tables {
        name: text.name.text.copy(alloc)?,
        name_oid: text.name_oid.copy(alloc)?,
        types: whole.types,
        operations: whole.operations,
        errors: whole.errors,
    })
}

/// The tables of a module without a fault.
fn tabled_module(alloc: Global, text: &ModuleText) -> Result<Tables, TableFault>
    requires { HasNoFault text.now }
    ensures found { IfOk result (λ tables. AreTablesOf text.now tables) }
    ensures no_memory { IfErr result (IsRefusedBy text.now) }
{
    let scope = Scope::new(alloc, text)?;
    match tabled(alloc, &scope) {
        Err(_) => Err(TableFault::NoMemory),
        Ok(whole) => tables(alloc, text, whole),
    }
}

/// The tables of a module, if it has no fault.
///
/// # Errors
///
/// `At` where the module has a fault: the least one by line, column and the order of kinds.
/// `NoMemory` where an allocation is refused. The code answers so too where its table refuses a
/// row, as it would one of a `ModuleText` that stands for no text, with an ENUMERATED of no items.
/// A table takes each row of a module that was read and has no fault (`faultless_rows_are_sound`);
/// that the walk through such a module halts for memory alone isn't proved.
#[tactic(auto, using(crate::proofs::Least::no_fault_of))]
pub fn compile(alloc: Global, text: &ModuleText) -> Result<Tables, TableFault>
    ensures found { IfOk result (λ tables. AreTablesOf text.now tables) }
    ensures refused { IfErr result (IsRefusedBy text.now) }
    // A module without a fault is refused for want of memory alone.
    ensures complete { HasNoFault text.now → IfErr result (λ fault. fault ≡ no_room) }
{
    match least_fault(alloc, text.assignments.as_slice())? {
        Some(found) => Err(TableFault::At {
            line: found.place.line,
            column: found.place.column,
            kind: found.kind,
        }),
        None => tabled_module(alloc, text),
    }
}
