//! All keys, each behind those under it.

ghost use Rattle.std.specs.Prelude.{◌≡◌, ◌++◌, IfOk, OnOk, length};
ghost use Rattle.std.specs.Map.{values_of};
ghost use Rattle.slab.specs.Slab.{get};
ghost use Rattle.linked_ops.specs.KeysAlong.{reached, trees_along, root_keys, roots_keys};

use crate::key::Key;
use crate::links::{first_child, node_at};
use crate::node::{Node, Opening};
use crate::openings::{Openings, key_with};
use osi_base::NoMemory;
use slab::Slab;
use std::alloc::Global;

/// The node at a place, if there is one.
fn reached(nodes: &Slab<Node>, at: Option<usize>) -> Option<Node>
    ensures { result ≡ reached (get nodes.now) at }
{
    match at {
        None => None,
        Some(place) => node_at(nodes, place),
    }
}

/// Tells the key of the node at a place and those of what follows it, each behind those under it,
/// at most so many in a row.
#[tactic(auto, unfolding(crate::specs::KeysAlong::trees_along))]
fn tell_along(
    nodes: &Slab<Node>,
    at: Option<usize>,
    left: usize,
    told: &mut Vec<Key>,
) -> Result<(), NoMemory>
    ensures { OnOk result (told.new.items ≡ told.old.items ++ trees_along (get nodes.now) left at) }
{
    let mut at = at;
    let mut left = left;
    while left > 0 {
        let Some(node) = reached(nodes, at) else {
            return Ok(());
        };
        left -= 1;
        tell_along(nodes, node.first_child, left, told)?;
        told.push(node.key)?;
        at = node.next;
    }
    Ok(())
}

/// Tells a root's key behind those under it, and nothing of another key.
fn tell_root(
    nodes: &Slab<Node>,
    openings: &Openings,
    opening: &Opening,
    told: &mut Vec<Key>,
) -> Result<(), NoMemory>
    ensures { OnOk result (told.new.items ≡ told.old.items ++ root_keys (get nodes.now)
        openings.now.entries (length openings.now.entries) opening.now) }
{
    if key_with(openings, opening.parent).is_some() {
        return Ok(());
    }
    let first = first_child(nodes, Some(opening.place));
    tell_along(nodes, first, openings.len(), told)?;
    told.push(opening.key)?;
    Ok(())
}

/// All keys, each behind those under it; roots, and the children of one key, in order of opening.
/// Each key is looked at once, but that it is looked up whether one stands above it.
pub(crate) fn all_keys(
    alloc: Global,
    nodes: &Slab<Node>,
    openings: &Openings,
) -> Result<Vec<Key>, NoMemory>
    ensures { IfOk result (λ keys. keys.items ≡ roots_keys (get nodes.now) openings.now.entries
        (length openings.now.entries) (values_of openings.now.entries)) }
{
    let mut told = Vec::new(alloc);
    for opening in openings.values() {
        tell_root(nodes, openings, opening, &mut told)?;
    }
    Ok(told)
}
