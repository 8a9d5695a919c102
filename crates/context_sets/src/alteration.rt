//! Alterations.

use osi_base::{Ids, Proposals};

/// An alteration of a set: contexts to be added, and contexts to be deleted (X.226 8.2).
#[derive(Debug, Drop)]
pub struct Alteration {
    /// The contexts to be added.
    pub added: Proposals,
    /// The identifiers of the contexts to be deleted.
    pub deleted: Ids,
}
