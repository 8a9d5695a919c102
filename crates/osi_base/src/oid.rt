//! Object identifiers.

ghost use Rattle.std.specs.Prelude.{◌≡◌, ◌↔◌, IsTrue, IsSome, IfSome, IfOk};
ghost use Rattle.osi_base.specs.Oid.{IsOid, is_oid};

use crate::copied::Copied;
use crate::fault::NoMemory;
use std::alloc::Global;
use std::marker::Model;

/// An object identifier: 2 to 32 arcs, the first 0 to 2, and the second below 40 where the first
/// is 0 or 1 (X.660 7.6, X.690 8.19.4).
#[derive(Debug, Drop)]
pub struct Oid {
    arcs: Vec<u32>,
}

impl Model for Oid {
    ghost use Rattle.std.specs.Prelude.{ℕ, List};
    ghost use Rattle.osi_base.specs.Oid.{IsOid};

    ghost Value = { List ℕ };

    ghost view = { λ oid. oid.arcs.items };

    ghost invariant = { λ oid. IsOid oid.arcs.items };
}

/// Whether these arcs are an object identifier.
pub fn are_oid(arcs: &[u32]) -> bool
    ensures { result ≡ is_oid arcs.now }
{
    match arcs {
        [root, second, ..] => { arcs.len() <= 32 && (*root < 2 && *second < 40 || *root == 2) }
        _ => false,
    }
}

impl Oid {
    /// The object identifier of these arcs, where they are one.
    pub fn from_vec(arcs: Vec<u32>) -> Option<Oid>
        ensures one { IsSome result ↔ IsOid arcs.items }
        ensures value { IfSome result (λ oid. oid ≡ arcs.items) }
    {
        if are_oid(&arcs) {
            Some(Oid { arcs })
        } else {
            None
        }
    }

    /// The object identifier of these arcs, which are one.
    pub fn from_slice(alloc: Global, arcs: &[u32]) -> Result<Oid, NoMemory>
        requires { IsOid arcs.now }
        ensures { IfOk result (λ oid. oid ≡ arcs.now) }
    {
        Ok(Oid {
            arcs: Vec::from_slice(alloc, arcs)?,
        })
    }

    /// The arcs in their order.
    pub fn arcs(&self) -> &[u32]
        ensures value { result.now ≡ self.now }
        ensures one { IsOid self.now }
    {
        self.arcs.as_slice()
    }

    /// Whether the two are one object identifier.
    pub fn is(&self, other: &Oid) -> bool
        ensures { IsTrue result ↔ (self.now ≡ other.now) }
    {
        self.arcs.as_slice() == other.arcs.as_slice()
    }
}

impl Copied for Oid {
    fn copy(&self, alloc: Global) -> Result<Oid, NoMemory> {
        Oid::from_slice(alloc, self.arcs())
    }
}
