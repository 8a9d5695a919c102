//! Each law is the contract of a function that does nothing.

ghost use Rattle.der_octets.specs.Laws.{DerAreOctets, FittingLeavesAre};

/// A DER spelling of fewer than 2^24 octets consists of octets, where the strings that stand in the
/// value do, and its values of any type.
pub fn der_are_octets()
    ensures law { DerAreOctets }
{}

/// So they are in each value that has the form of a row of a table without `Any`.
pub fn fitting_leaves_are()
    ensures law { FittingLeavesAre }
{}
