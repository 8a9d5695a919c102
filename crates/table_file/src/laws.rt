//! The laws of table files, each the contract of a function that does nothing.

ghost use Rattle.table_file.specs.Laws.{FilesAreLoaded, LoadedAreFiles, StoredIsLoaded, MigratedIsLoaded};

/// Table files of either version are loaded.
pub fn files_are_loaded()
    ensures { FilesAreLoaded }
{}

/// What is loaded is a table file of its tables, whose rows are sound.
pub fn loaded_are_files()
    ensures { LoadedAreFiles }
{}

/// What is stored of sound tables is loaded again, within the limits.
pub fn stored_is_loaded()
    ensures { StoredIsLoaded }
{}

/// The migration of a file holds the tables of the file, within the limit.
pub fn migrated_is_loaded()
    ensures { MigratedIsLoaded }
{}
