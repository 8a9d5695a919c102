//! What a check of a module writes.

ghost use Rattle.std.specs.Prelude.{◌≡◌, IfOk};
ghost use Rattle.module_check.specs.Checking.{shown, refused_text, IsChecked};

use module_reading::{ModuleFault, ModuleKind, read_module};
use osi_base::{NoMemory, Octets};
use std::alloc::Global;
use stub_tables::Tables;
use table_file::store;
use table_listing::listing;
use value_text::Text;

/// What a check of a module writes.
#[derive(Debug, Drop)]
pub enum Checked {
    /// The module has tables: its listing, or its table file.
    Shown(Octets),
    /// It has none: the line that says where it is at fault.
    Refused(Octets),
}

/// The line that says where a module is at fault: `module refused`, the line, the column and the
/// kind of the fault. Of a table file the line is 0 and the column is a place.
///
/// # Errors
///
/// Where memory is refused.
pub fn refused_text(
    alloc: Global,
    line: u32,
    column: u64,
    kind: ModuleKind,
) -> Result<Octets, NoMemory>
    ensures { IfOk result (λ text. text ≡ refused_text line column kind) }
{
    let mut text = Text::new(alloc);
    text.put("module refused ")?;
    text.put_number(u64::from(line))?;
    text.put(" ")?;
    text.put_number(column)?;
    text.put(" ")?;
    text.put(kind.word())?;
    text.end_line()?;
    Ok(text.into_octets())
}

/// Tables as a table file, or as a listing.
fn shown(alloc: Global, tables: &Tables, table: bool) -> Result<Octets, NoMemory>
    ensures { IfOk result (λ octets. octets ≡ shown table tables.now) }
{
    if table {
        store(alloc, tables)
    } else {
        listing(alloc, tables)
    }
}

/// What a check of a module writes, with its listing, or its table file where `table` asks for it.
///
/// # Errors
///
/// Where memory is refused.
#[tactic(auto, using(crate::proofs::Cases::is_shown, crate::proofs::Cases::is_told))]
pub fn check_module(alloc: Global, bytes: &[u8], table: bool) -> Result<Checked, NoMemory>
    ensures { IfOk result (λ written. IsChecked table bytes.now written) }
{
    match read_module(alloc, bytes) {
        Ok(tables) => {
            let text = shown(alloc, &tables, table)?;
            Ok(Checked::Shown(text))
        }
        Err(ModuleFault::At { line, column, kind }) => {
            let text = refused_text(alloc, line, column, kind)?;
            Ok(Checked::Refused(text))
        }
        Err(ModuleFault::NoMemory) => Err(NoMemory),
    }
}
