//! The tables of a module, from its text or its table file.

ghost use Rattle.std.specs.Prelude.{◌≡◌, true, false, IfOk, IfErr};
ghost use Rattle.module_compiler.specs.Tables.{AreTablesOf};
ghost use Rattle.module_reading.specs.declared.fault.ModuleFault.TheVariants.{NoMemory as no_room};
ghost use Rattle.module_reading.specs.Modules.{is_table_file, HasTables, IsTableRefusal, IsRefused, IsFaultless};

use crate::fault::{ModuleFault, ModuleKind};
use module_compiler::{TableFault, compile};
use notation_tokens::NotationFault;
use operation_notation::{ModuleText, parse_module};
use std::alloc::Global;
use stub_tables::Tables;
use table_file::{LoadFault, load};

/// Whether octets begin as a table file does, with `OTAB`.
fn is_table_file(bytes: &[u8]) -> bool
    ensures { result ≡ is_table_file bytes.now }
{
    match bytes {
        [first, second, third, fourth, ..] => {
            *first == b'O' && *second == b'T' && (*third == b'A' && *fourth == b'B')
        }
        _ => false,
    }
}

/// The tables of a module that reads.
fn tables_of(alloc: Global, module: &ModuleText) -> Result<Tables, ModuleFault>
    ensures found { IfOk result (AreTablesOf «module».now) }
    ensures refused { IfErr result (IsTableRefusal «module».now) }
{
    match compile(alloc, module) {
        Ok(tables) => Ok(tables),
        Err(TableFault::At { line, column, kind }) => Err(ModuleFault::At {
            line,
            column: u64::from(column),
            kind: ModuleKind::Table(kind),
        }),
        Err(TableFault::NoMemory) => Err(ModuleFault::NoMemory),
    }
}

/// The tables of a text.
#[tactic(auto, using(crate::proofs::Cases::text_found, crate::proofs::Cases::text_refused))]
fn text_tables(alloc: Global, text: &[u8]) -> Result<Tables, ModuleFault>
    requires { is_table_file text.now ≡ false }
    ensures found { IfOk result (HasTables text.now) }
    ensures refused { IfErr result (IsRefused text.now) }
{
    match parse_module(alloc, text) {
        Ok(module) => tables_of(alloc, &module),
        Err(NotationFault::At { line, column, kind }) => Err(ModuleFault::At {
            line,
            column: u64::from(column),
            kind: ModuleKind::Notation(kind),
        }),
        Err(NotationFault::NoMemory) => Err(ModuleFault::NoMemory),
    }
}

/// The tables of a table file.
#[tactic(auto, using(crate::proofs::Cases::file_found))]
fn file_tables(alloc: Global, bytes: &[u8]) -> Result<Tables, ModuleFault>
    requires { is_table_file bytes.now ≡ true }
    ensures found { IfOk result (HasTables bytes.now) }
    ensures refused { IfErr result (IsRefused bytes.now) }
{
    match load(alloc, bytes) {
        Ok(tables) => Ok(tables),
        Err(LoadFault::At { place, kind }) => Err(ModuleFault::At {
            line: 0,
            column: place as u64,
            kind: ModuleKind::File(kind),
        }),
        Err(LoadFault::NoMemory) => Err(ModuleFault::NoMemory),
    }
}

/// The tables of a module, which is a table file where it begins with `OTAB`, else a text.
///
/// # Errors
///
/// `At`: of a text the first fault as `parse_module` tells it, or where it reads as a module the
/// least fault of that module as `compile` tells it; of a table file the first fault as `load`
/// tells it. `NoMemory` where an allocation is refused.
pub fn read_module(alloc: Global, bytes: &[u8]) -> Result<Tables, ModuleFault>
    ensures found { IfOk result (HasTables bytes.now) }
    ensures refused { IfErr result (IsRefused bytes.now) }
    // A module without a fault is refused for want of memory alone.
    ensures complete { IsFaultless bytes.now → IfErr result (λ fault. fault ≡ no_room) }
{
    if is_table_file(bytes) {
        file_tables(alloc, bytes)
    } else {
        text_tables(alloc, bytes)
    }
}
