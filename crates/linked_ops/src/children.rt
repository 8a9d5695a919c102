//! The children of a key.

ghost use Rattle.std.specs.Prelude.{◌≡◌};
ghost use Rattle.std.specs.Iterator.{YieldsFirst, item_count};
ghost use Rattle.slab.specs.Slab.{get};
ghost use Rattle.linked_ops.specs.KeysAlong.{keys_along};

use crate::key::Key;
use crate::links::node_at;
use crate::node::Node;
use slab::Slab;

/// The keys right under one key, in order of opening.
#[derive(Drop)]
pub struct Children<'f> {
    pub(crate) nodes: &'f Slab<Node>,
    pub(crate) at: Option<usize>,
    /// At most so many are still to come.
    pub(crate) left: usize,
}

impl<'f> Iterator for Children<'f> {
    type Item = Key;

    ghost next_gives = { YieldsFirst (λ c. keys_along (get c.nodes.now) c.left c.at) };

    ghost remaining = { item_count (λ c. keys_along (get c.nodes.now) c.left c.at) };

    fn next(&mut self) -> Option<Key> {
        let Some(place) = self.at else {
            return None;
        };
        if self.left == 0 {
            return None;
        }
        match node_at(self.nodes, place) {
            None => None,
            Some(node) => {
                self.at = node.next;
                self.left -= 1;
                Some(node.key)
            }
        }
    }
}
