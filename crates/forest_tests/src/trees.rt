//! The forest of open invocations by itself. Which keys come, and in which order, follows from the
//! order in which they were opened.

use linked_ops::{Forest, ForestRefusal, Key};
use std::alloc::Global;
use std::process::Abort;
use std::test::*;

/// An own invocation.
fn own(id: i64) -> Key {
    Key { own: true, id }
}

/// An invocation of the peer.
fn peer(id: i64) -> Key {
    Key { own: false, id }
}

/// Opens a key that isn't open under one that is.
fn put(rt: &impl Abort, forest: &mut Forest, key: Key, parent: Option<Key>) {
    forest.open(key, parent).expect(rt, "the key is opened");
}

/// The own invocation 1, with the peer's 1 and 2 under it, and the own 2 under the peer's 1.
fn family(rt: &impl Abort, alloc: Global) -> Forest {
    let mut forest = Forest::new(alloc);
    put(rt, &mut forest, own(1), None);
    put(rt, &mut forest, peer(1), Some(own(1)));
    put(rt, &mut forest, own(2), Some(peer(1)));
    put(rt, &mut forest, peer(2), Some(own(1)));
    forest
}

/// Whether these keys are those, in their order.
fn are_same(keys: &[Key], wanted: &[Key]) -> bool {
    for (key, other) in keys.iter().zip(wanted.iter()) {
        if !key.is(other) {
            return false;
        }
    }
    keys.len() == wanted.len()
}

/// Whether all keys in post order are these.
fn is_post_order(rt: &impl Abort, forest: &Forest, wanted: &[Key]) -> bool {
    let keys = forest.post_order().expect(rt, "memory");
    are_same(keys.as_slice(), wanted)
}

/// Whether the children of a key are these, in their order.
fn are_children(forest: &Forest, key: Key, wanted: &[Key]) -> bool {
    let mut children = forest.children(key);
    for other in wanted {
        match children.next() {
            Some(child) if child.is(other) => {}
            _ => return false,
        }
    }
    children.next().is_none()
}

#[test]
fn children_come_before_parents(rt: HostRuntime) {
    let forest = family(&rt, rt.alloc());
    let wanted = [own(2), peer(1), peer(2), own(1)];
    assert!(rt; is_post_order(&rt, &forest, &wanted));
    drop(forest);
}

#[test]
fn trees_come_in_order_of_opening(rt: HostRuntime) {
    let mut forest = family(&rt, rt.alloc());
    put(&rt, &mut forest, own(3), None);
    assert!(rt; forest.close(own(1)));
    let wanted = [own(2), peer(1), peer(2), own(3)];
    assert!(rt; is_post_order(&rt, &forest, &wanted));
    drop(forest);
}

#[test]
fn children_come_in_order_of_opening(rt: HostRuntime) {
    let forest = family(&rt, rt.alloc());
    assert!(rt; are_children(&forest, own(1), &[peer(1), peer(2)]));
    drop(forest);
}

#[test]
fn a_key_is_opened_once(rt: HostRuntime) {
    let mut forest = family(&rt, rt.alloc());
    let again = forest.open(peer(2), None);
    drop(forest);
    assert!(rt;
        matches!(
            again,
            Err(ForestRefusal::Present(Key { own: false, id: 2 }))
        )
    );
}

#[test]
fn a_parent_is_open(rt: HostRuntime) {
    let mut forest = family(&rt, rt.alloc());
    let under = forest.open(peer(3), Some(own(9)));
    drop(forest);
    assert!(rt;
        matches!(
            under,
            Err(ForestRefusal::ParentAbsent(Key { own: true, id: 9 }))
        )
    );
}

#[test]
fn the_children_of_what_is_closed_are_roots(rt: HostRuntime) {
    let mut forest = family(&rt, rt.alloc());
    assert!(rt; forest.close(own(1)));
    assert!(rt; forest.parent(peer(2)).is_none() && forest.is_open(peer(2)));
    assert!(rt; !forest.close(own(1)));
    drop(forest);
}

#[test]
fn siblings_stay_in_order_where_one_is_closed(rt: HostRuntime) {
    let mut forest = family(&rt, rt.alloc());
    put(&rt, &mut forest, peer(3), Some(own(1)));
    assert!(rt; forest.close(peer(2)));
    put(&rt, &mut forest, peer(4), Some(own(1)));
    assert!(rt; are_children(&forest, own(1), &[peer(1), peer(3), peer(4)]));
    drop(forest);
}

#[test]
fn a_key_that_is_opened_again_has_no_children(rt: HostRuntime) {
    let mut forest = family(&rt, rt.alloc());
    assert!(rt; forest.close(own(1)));
    put(&rt, &mut forest, own(1), None);
    assert!(rt; forest.parent(peer(1)).is_none());
    assert!(rt; are_children(&forest, own(1), &[]));
    drop(forest);
}
