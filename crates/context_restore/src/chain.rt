//! The functions that follow links: from a node to its parent, and so on to the root.

ghost use Rattle.std.specs.Prelude.{◌≡◌, ◌≤◌, ◌+◌, ℕ, List, [], ◌∷◌, drop, length, Some, None, IfOk, OnOk, OnErr, OnSome};
ghost use Rattle.slab.specs.Slab.{get, slab_len, Updates};
ghost use Rattle.context_restore.specs.Versions.{applied, root};
ghost use Rattle.context_restore.specs.Chain.{parent_of, back_of, set_back, versions, root_node, IsLinked, IsCut};

use crate::differing::undo;
use crate::node::VersionNode;
use osi_base::{ListOf, NoMemory, SetItem, SetList};
use slab::Slab;
use std::alloc::Global;

/// Leads a set back by the node under a key, and answers the key of its parent.
fn undo_at(
    alloc: Global,
    set: &mut Vec<SetItem>,
    nodes: &Slab<VersionNode>,
    key: u32,
) -> Result<Option<u32>, NoMemory>
    ensures set { OnOk result (set.new.items ≡ applied (back_of (get nodes.now key))
        set.old.items) }
    ensures parent { IfOk result (λ parent. parent ≡ parent_of (get nodes.now key)) }
{
    match nodes.get(key as usize) {
        None => Ok(None),
        Some(node) => {
            undo(alloc, set, node)?;
            Ok(node.parent)
        }
    }
}

/// The set to which so many links lead back from the newest one.
pub(crate) fn set_back(
    alloc: Global,
    nodes: &Slab<VersionNode>,
    head: Option<u32>,
    newest: SetList,
    count: usize,
) -> Result<Vec<SetItem>, NoMemory>
    ensures { IfOk result (λ set. set.items ≡ set_back nodes.now count head newest) }
{
    let mut set = newest.into_vec();
    let mut at = head;
    for step in 0..count {
        let Some(key) = at else {
            return Ok(set);
        };
        at = undo_at(alloc, &mut set, nodes, key)?;
    }
    Ok(set)
}

/// A chain of one node.
pub(crate) fn rooted(alloc: Global, set: SetList) -> Result<Slab<VersionNode>, NoMemory>
    ensures len { IfOk result (λ nodes. slab_len nodes ≡ 1) }
    ensures versions { IfOk result (λ nodes. versions nodes (Some 0) ≡ root set ∷ []) }
    ensures there { IfOk result (λ nodes. get nodes 0 ≡ Some (root_node set)) }
{
    let mut nodes = Slab::new(alloc);
    nodes.insert(VersionNode {
        parent: None,
        added: set,
        lost: ListOf::new(alloc),
    })?;
    Ok(nodes)
}

/// Puts a node into a slab, and answers its key. Keys are counted from 0, and those that are free
/// again are given out first.
pub(crate) fn insert_node(nodes: &mut Slab<VersionNode>, node: VersionNode) -> Result<u32, NoMemory>
    ensures was_vacant { IfOk result (λ key. get nodes.old key ≡ None) }
    ensures updates { IfOk result (λ key. Updates nodes.old nodes.new key (Some node)) }
    ensures len { OnOk result (slab_len nodes.new ≡ slab_len nodes.old + 1) }
    ensures err { OnErr result (nodes.new.slots ≡ nodes.old.slots) }
{
    let Ok(key) = u32::try_from(nodes.vacant_key()) else {
        return Err(NoMemory);
    };
    nodes.insert(node)?;
    Ok(key)
}

/// Takes the node under a key out, and answers the key of its parent.
fn take_out(nodes: &mut Slab<VersionNode>, key: u32) -> Option<u32>
    ensures parent { result ≡ parent_of (get nodes.old key) }
    ensures updates { Updates nodes.old nodes.new key None }
    ensures len { OnSome (get nodes.old key) (slab_len nodes.new + 1 ≡ slab_len nodes.old) }
{
    match nodes.try_remove(key as usize) {
        None => None,
        Some(node) => node.parent,
    }
}

/// Takes out so many of the newest nodes of a chain, and answers the key of the one behind them.
pub(crate) fn drop_newest(
    nodes: &mut Slab<VersionNode>,
    head: Option<u32>,
    count: usize,
) -> Option<u32>
    ensures { (keys : List ℕ) → IsLinked nodes.old head keys → count ≤ length keys →
        IsCut nodes.old nodes.new result (drop count keys) count }
{
    let mut at = head;
    for place in 0..count {
        let Some(key) = at else {
            return None;
        };
        at = take_out(nodes, key);
    }
    at
}
