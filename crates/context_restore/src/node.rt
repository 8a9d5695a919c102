//! Nodes of a chain of versions.

use osi_base::SetList;

/// A version of a set: the contexts that it adds to its parent's set, and those that it takes out
/// of it. A context whose pair changes is in both. The root has no parent, and adds its whole set.
/// What is taken out is kept whole, so that a node leads back to its parent's set too.
#[derive(Debug, Drop)]
pub struct VersionNode {
    /// The number of the version that this one follows; none for the root.
    pub parent: Option<u32>,
    /// The contexts that it adds to its parent's set.
    pub added: SetList,
    /// The contexts that it takes out of its parent's set, kept whole.
    pub lost: SetList,
}
