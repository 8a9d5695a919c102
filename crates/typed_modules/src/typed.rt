//! The types of a module.

ghost use Rattle.stub_tables.specs.declared.tables.Tables.{Tables};
ghost use Rattle.packed_codec.specs.Laws.{HasNoAny};
ghost use Rattle.module_reading.specs.Modules.{HasTables};

use osi_base::hold_octets;
use table_file::loaded_are_files;

/// Does nothing. Its contract says of octets that are a module, a text of the notation or a table
/// file: no type of its tables is `Any`.
pub fn module_has_no_any(bytes: &[u8])
    ensures { (tables : Tables) → HasTables bytes.now tables → HasNoAny tables.types }
{
    hold_octets(bytes);
    loaded_are_files();
}
