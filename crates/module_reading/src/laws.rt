//! The laws of modules, as the contracts of functions that do nothing.

ghost use Rattle.module_reading.specs.Laws.{OneTables, TablesOrFault, OneFault, TablesAreFaultless, FaultlessAreTaken, FaultlessTextsHaveTables, ModulesHaveEither};

/// A module, a text or a table file, has one list of tables.
pub fn one_tables()
    ensures { OneTables }
{}

/// A module that has tables has no fault: it is never refused.
pub fn tables_or_fault()
    ensures { TablesOrFault }
{}

/// A module is refused for one fault, at one place.
pub fn one_fault()
    ensures { OneFault }
{}

/// A module that has tables is without a fault; one without a fault is never refused, and where it
/// is a text it has tables. A text that reads as a module has tables or a fault.
pub fn faultless_modules()
    ensures tables { TablesAreFaultless }
    ensures taken { FaultlessAreTaken }
    ensures have_tables { FaultlessTextsHaveTables }
    ensures either { ModulesHaveEither }
{}
