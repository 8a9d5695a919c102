//! The law of faults, as the contract of a function that does nothing.

ghost use Rattle.module_faults.specs.Laws.{OneLeastFault};

/// A module has one least fault, or none: never both, and never two.
pub fn one_least_fault()
    ensures { OneLeastFault }
{}
