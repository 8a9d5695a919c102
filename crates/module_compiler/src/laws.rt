//! The laws of modules that read, as the contracts of functions that do nothing.

ghost use Rattle.module_compiler.specs.Examples.{one};
ghost use Rattle.module_compiler.specs.Refusals.{HasNoFault};
ghost use Rattle.module_compiler.specs.Laws.{FaultlessHaveTables, FaultlessRowsAreSound, RefusedAreLeast, FaultOrNone, NeverBoth};

/// A well-formed module without a fault has tables.
pub fn faultless_have_tables()
    ensures { FaultlessHaveTables }
{}

/// The rows of a well-formed module without a fault are sound: the table takes each of them.
pub fn faultless_rows_are_sound()
    ensures { FaultlessRowsAreSound }
{}

/// The least fault of a module is one of its faults, and none of them comes before it.
pub fn refused_are_least()
    ensures { RefusedAreLeast }
{}

/// A module has a least fault or none: one of the two always, and never both.
pub fn fault_or_none()
    ensures either { FaultOrNone }
    ensures never_both { NeverBoth }
{}

/// The module `One`, of one operation over INTEGER, has no fault.
pub fn one_is_faultless()
    ensures { HasNoFault one }
{}
