//! Alterations that an end asks for.

ghost use Rattle.std.specs.Prelude.{◌≡◌};

use osi_base::{Ids, Proposals};
use std::marker::Model;

/// What an end asks for: contexts to be added, and to be deleted (X.226 8.2).
#[derive(Debug, Drop)]
pub struct Alteration {
    pub(crate) add: Proposals,
    pub(crate) delete: Ids,
}

impl Model for Alteration {
    ghost use Rattle.association_ground.specs.end_rules.Sets.{Alteration as seen_alteration};

    ghost Value = { seen_alteration };

    ghost view = { λ a. record { add = a.add; delete = a.delete } };
}

impl Alteration {
    /// These contexts are to be added and deleted.
    pub fn new(add: Proposals, delete: Ids) -> Alteration
        ensures { result ≡ record { add = add; delete = delete } }
    {
        Alteration { add, delete }
    }

    /// The contexts to be added.
    pub fn add(&self) -> &Proposals
        ensures { result.now ≡ self.now.add }
    {
        &self.add
    }

    /// The contexts to be deleted.
    pub fn delete(&self) -> &Ids
        ensures { result.now ≡ self.now.delete }
    {
        &self.delete
    }
}
