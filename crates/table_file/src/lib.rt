//! Table files: the compiled tables of a module as octets, which are one value in the packed
//! syntax. They are stored; they are loaded, or refused with their first fault; and those of an
//! older version are migrated to the present one.
#![tactic(auto)]

mod fault;
mod field_types;
mod fields;
mod laws;
mod loading;
mod migrating;
mod names_and_codes;
mod putting;
mod row_parts;
mod rows;
mod sections;
mod spot;
mod storing;

pub use fault::LoadFault;
pub use laws::{files_are_loaded, loaded_are_files, migrated_is_loaded, stored_is_loaded};
pub use loading::{MOST_OCTETS, load};
pub use migrating::migrate;
pub use storing::store;
