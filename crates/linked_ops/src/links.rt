//! The functions that follow and change links.

ghost use Rattle.std.specs.Prelude.{◌≡◌, ℕ, ◌≢◌, None, Some, if◌then◌else◌};
ghost use Rattle.std.specs.Option.{option_map};
ghost use Rattle.slab.specs.Slab.{get, HasRoomFor};
ghost use Rattle.linked_ops.specs.declared.node.Node.{Node as node};
ghost use Rattle.linked_ops.specs.Links.{is_place, with_next, with_previous, with_child, without_child, first_child_of, last_child_of, linked_in, unlinked_in};

use crate::key::Key;
use crate::node::Node;
use slab::Slab;

/// The node at a place.
pub(crate) fn node_at(nodes: &Slab<Node>, place: usize) -> Option<Node>
    ensures { result ≡ get nodes.now place }
{
    nodes.get(place).copied()
}

/// The last child of a node.
fn last_child(nodes: &Slab<Node>, parent: Option<usize>) -> Option<usize>
    ensures { result ≡ last_child_of (get nodes.now) parent }
{
    match parent {
        None => None,
        Some(place) => match node_at(nodes, place) {
            None => None,
            Some(node) => node.last_child,
        },
    }
}

/// The first child of the node at a place.
pub(crate) fn first_child(nodes: &Slab<Node>, place: Option<usize>) -> Option<usize>
    ensures { result ≡ first_child_of (get nodes.now) place }
{
    match place {
        None => None,
        Some(place) => match node_at(nodes, place) {
            None => None,
            Some(node) => node.first_child,
        },
    }
}

/// Changes what follows a node.
fn set_next(nodes: &mut Slab<Node>, at: Option<usize>, next: Option<usize>)
    ensures { (p : ℕ) → get nodes.new p
        ≡ (if is_place p at then option_map (with_next next) (get nodes.old p) else get nodes.old
        p) }
{
    if let Some(place) = at {
        if let Some(node) = nodes.get_mut(place) {
            node.next = next;
        }
    }
}

/// Changes what a node follows.
fn set_previous(nodes: &mut Slab<Node>, at: Option<usize>, previous: Option<usize>)
    ensures { (p : ℕ) → get nodes.new p
        ≡ (if is_place p at then option_map (with_previous previous) (get nodes.old p) else get
        nodes.old p) }
{
    if let Some(place) = at {
        if let Some(node) = nodes.get_mut(place) {
            node.previous = previous;
        }
    }
}

/// Puts a child behind the others of a node.
fn add_child(nodes: &mut Slab<Node>, parent: Option<usize>, child: usize)
    ensures { (p : ℕ) → get nodes.new p
        ≡ (if is_place p parent then option_map (with_child child) (get nodes.old p) else get
        nodes.old p) }
{
    if let Some(place) = parent {
        if let Some(node) = nodes.get_mut(place) {
            if node.first_child.is_none() {
                node.first_child = Some(child);
            }
            node.last_child = Some(child);
        }
    }
}

/// Takes a child, as its node was, from among those of a node.
fn drop_child(nodes: &mut Slab<Node>, parent: Option<usize>, child: &Node)
    ensures { (p : ℕ) → get nodes.new p
        ≡ (if is_place p parent then option_map (without_child child.now) (get nodes.old p) else get
        nodes.old p) }
{
    if let Some(place) = parent {
        if let Some(node) = nodes.get_mut(place) {
            if child.previous.is_none() {
                node.first_child = child.next;
            }
            if child.next.is_none() {
                node.last_child = child.previous;
            }
        }
    }
}

/// Puts a node for a key behind the other children of a node, and answers its place.
pub(crate) fn link(nodes: &mut Slab<Node>, key: Key, parent: Option<usize>) -> usize
    requires { HasRoomFor nodes.old 1 }
    ensures vacant { get nodes.old result ≡ None }
    ensures place { result ≡ nodes.old.vacant_key }
    ensures linked { (p : ℕ) → get nodes.new p ≡ linked_in (get nodes.old) result key parent p }
{
    let previous = last_child(nodes, parent);
    let place = nodes.insert_reserved(Node {
        key,
        previous,
        next: None,
        first_child: None,
        last_child: None,
    });
    set_next(nodes, previous, Some(place));
    add_child(nodes, parent, place);
    place
}

/// Takes the node at a place out, from among the children of a node where that is still there.
pub(crate) fn unlink(nodes: &mut Slab<Node>, place: usize, parent: Option<usize>)
    ensures { (p : ℕ) → get nodes.new p ≡ unlinked_in (get nodes.old) place parent p }
{
    if let Some(node) = nodes.try_remove(place) {
        set_next(nodes, node.previous, node.next);
        set_previous(nodes, node.next, node.previous);
        drop_child(nodes, parent, &node);
    }
}
