//! The laws of the two sides, each the contract of a function that does nothing.

ghost use Rattle.rose_roles.specs.Laws.{AlwaysCarries, StaysWithin};

/// The octets behind a head always carry something: what reading them by the type that belongs to
/// its code gives. So what `Invoker::take` and `Performer::take` hear is told of each head.
pub fn always_carries()
    ensures { AlwaysCarries }
{}

/// Whatever is heard, at most 4,096 invocations of either end stay open. (`Invoker::open` is called
/// where fewer are open, and `Performer::take` opens none beyond them.)
pub fn stays_within()
    ensures { StaysWithin }
{}
