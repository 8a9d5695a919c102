//! Equal values made with an allocator.

ghost use Rattle.std.specs.Prelude.{◌≡◌, IfOk};

use crate::fault::NoMemory;
use std::alloc::Global;

/// A value of which an equal one can be made.
pub trait Copied {
    /// An equal value, whose collections are kept with this allocator.
    fn copy(&self, alloc: Global) -> Result<Self, NoMemory>
        ensures { IfOk result (λ copy. copy ≡ self.now) };
}

impl Copied for u32 {
    fn copy(&self, _alloc: Global) -> Result<u32, NoMemory> {
        Ok(*self)
    }
}

impl<T: Copied + Drop> Copied for Option<T> {
    fn copy(&self, alloc: Global) -> Result<Option<T>, NoMemory> {
        match self {
            Some(value) => Ok(Some(value.copy(alloc)?)),
            None => Ok(None),
        }
    }
}
