//! The forest of open invocations.

ghost use Rattle.std.specs.Prelude.{◌≡◌, [], IfOk, ℕ};
ghost use Rattle.linked_ops.specs.Entries.{is_open, parent_of, children_of, closed, post_order_of, IsForest};
ghost use Rattle.linked_ops.specs.Opening.{IsOpened};
ghost use Rattle.linked_ops.specs.KeysAlong.{children_left};

use crate::children::Children;
use crate::key::{ForestRefusal, Key};
use crate::links::first_child;
use crate::node::Node;
use crate::numbers::Numbers;
use crate::openings::{Openings, above, enter, entries, leave, place_with};
use crate::trees::all_keys;
use osi_base::{ListOf, NoMemory};
use slab::Slab;
use std::alloc::Global;
use std::collections::BTreeMap;
use std::marker::Model;

/// Keys, as a list.
pub type Keys = ListOf<Key>;

/// Keys, each with the key above it.
pub type KeyEntries = ListOf<(Key, Option<Key>)>;

/// The open invocations of both ends, in order of opening: nodes in a slab, linked by places, which
/// a key finds by the number of its opening. A call costs at most the logarithm of what is open,
/// and what it answers; `post_order` and `entries` cost that logarithm for each key that they
/// answer.
#[derive(Drop)]
pub struct Forest {
    alloc: Global,
    nodes: Slab<Node>,
    numbers: Numbers,
    openings: Openings,
    /// The number of the next opening.
    made: u64,
}

impl Model for Forest {
    ghost use Rattle.std.specs.Prelude.{List, Option};
    ghost use Rattle.linked_ops.specs.declared.key.Key.{Key};

    ghost Value = { List (Key × Option Key) };

    ghost use Rattle.linked_ops.specs.Rows.{entries};
    ghost use Rattle.linked_ops.specs.Kept.{IsKept};

    ghost view = { λ f. entries f.openings.entries };

    ghost invariant = { λ f. IsKept f.openings.entries f.nodes f.numbers f.made };
}

impl Forest {
    /// A forest without keys.
    pub fn new(alloc: Global) -> Forest
        ensures { result ≡ [] }
    {
        Forest {
            alloc,
            nodes: Slab::new(alloc),
            numbers: Numbers::new(alloc),
            openings: BTreeMap::new(alloc),
            made: 0,
        }
    }

    /// Does nothing. Its contract says that keys are distinct, and that each stands behind the one
    /// above it.
    pub fn hold_forest(&self)
        ensures { IsForest self.now }
    {
        let _openings = &self.openings;
    }

    /// Whether the key is open.
    pub fn is_open(&self, key: Key) -> bool
        ensures { result ≡ is_open key self.now }
    {
        self.numbers.get(&key).is_some()
    }

    /// Opens a key, as a root or under an open one. A refusal changes nothing.
    pub fn open(&mut self, key: Key, parent: Option<Key>) -> Result<(), ForestRefusal>
        ensures { IsOpened key parent self.old self.new result }
    {
        if self.numbers.get(&key).is_some() {
            return Err(ForestRefusal::Present(key));
        }
        let under = match self.numbers.above(parent) {
            Ok(under) => under,
            Err(parent) => return Err(ForestRefusal::ParentAbsent(parent)),
        };
        if self.made == u64::MAX {
            return Err(ForestRefusal::NoMemory);
        }
        enter(
            &mut self.openings,
            &mut self.nodes,
            &mut self.numbers,
            self.made,
            key,
            under,
        )?;
        self.made += 1;
        Ok(())
    }

    /// Closes a key, and makes its children roots; false exactly where it isn't open. No memory is
    /// taken.
    pub fn close(&mut self, key: Key) -> bool
        ensures answer { result ≡ is_open key self.old }
        ensures after { self.new ≡ closed key self.old }
    {
        match self.numbers.take(&key) {
            None => false,
            Some(number) => {
                leave(&mut self.openings, &mut self.nodes, number);
                true
            }
        }
    }

    /// The key above this one; none where it is a root or isn't open.
    pub fn parent(&self, key: Key) -> Option<Key>
        ensures { result ≡ parent_of key self.now }
    {
        match self.numbers.get(&key) {
            None => None,
            Some(number) => above(&self.openings, number),
        }
    }

    /// The keys right under this one, in order of opening.
    pub fn children(&self, key: Key) -> Children<'_>
        ensures { children_left result ≡ children_of key self.now }
    {
        Children {
            nodes: &self.nodes,
            at: first_child(
                &self.nodes,
                place_with(&self.openings, self.numbers.get(&key)),
            ),
            left: self.openings.len(),
        }
    }

    /// All keys in order of opening, each with the key above it.
    pub fn entries(&self) -> Result<KeyEntries, NoMemory>
        ensures { IfOk result (λ list. list ≡ self.now) }
    {
        let list = entries(self.alloc, &self.openings)?;
        Ok(ListOf::from_vec(list))
    }

    /// All keys, each behind those under it; roots, and the children of one key, in order of
    /// opening.
    pub fn post_order(&self) -> Result<Keys, NoMemory>
        ensures { IfOk result (λ keys. keys ≡ post_order_of self.now) }
    {
        let told = all_keys(self.alloc, &self.nodes, &self.openings)?;
        Ok(ListOf::from_vec(told))
    }
}
