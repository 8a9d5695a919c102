//! Migrating table files to the present version.

ghost use Rattle.table_file.specs.Loading.{load_of, Migrates};

use crate::fault::LoadFault;
use crate::loading::load;
use crate::storing::store;
use osi_base::{NoMemory, Octets};
use std::alloc::Global;

/// The table file of the present version with the tables of this one.
///
/// # Errors
///
/// Those of `load`.
pub fn migrate(alloc: Global, bytes: &[u8]) -> Result<Octets, LoadFault>
    ensures { Migrates result (load_of bytes.now) }
{
    let tables = load(alloc, bytes)?;
    match store(alloc, &tables) {
        Ok(octets) => Ok(octets),
        Err(NoMemory) => Err(LoadFault::NoMemory),
    }
}
