//! The laws of first faults, each the contract of a function that does nothing.

ghost use Rattle.packed_faults.specs.Laws.{GivenIsFirst, FirstIsGiven, OneFirst, ThreeCases, ShortExactly};

/// A fault that reading gives is a first fault by the grammar.
pub fn given_is_first()
    ensures { GivenIsFirst }
{}

/// A first fault by the grammar is what reading gives.
pub fn first_is_given()
    ensures { FirstIsGiven }
{}

/// Octets have one first fault at most.
pub fn one_first()
    ensures { OneFirst }
{}

/// Of all octets one holds and no other: a first part is a spelling, there is a first fault, or
/// they are too short.
pub fn three_cases()
    ensures { ThreeCases }
{}

/// Octets are `Short` exactly where no spelling begins them and they have no first fault.
pub fn short_exactly()
    ensures { ShortExactly }
{}
