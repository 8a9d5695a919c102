//! A list that grows and shrinks at its front.

ghost use Rattle.std.specs.Prelude.{◌≡◌, ◌<◌, Some, List, [], ◌∷◌, reverse, length, slice_get, OnOk, OnErr, MatchOption};
ghost use Rattle.std.specs.Option.{option_copied};
ghost use Rattle.association_pieces.specs.NewestEnd.{top_of, rest};

use osi_base::NoMemory;
use std::alloc::Global;
use std::marker::Model;

/// A list that grows and shrinks at its front, the newest item. Contracts see it from the newest to
/// the oldest.
#[derive(Debug, Drop)]
pub struct Stack<T> {
    items: Vec<T>,
}

impl<T> Model for Stack<T> {
    ghost Value = { List T };

    ghost view = { λ stack. reverse stack.items.items };
}

impl<T> Stack<T> {
    /// No items.
    pub fn new(alloc: Global) -> Stack<T>
        ensures { result ≡ [] }
    {
        Stack {
            items: Vec::new(alloc),
        }
    }

    /// How many items there are.
    pub fn len(&self) -> usize
        ensures { result ≡ length self.now }
    {
        self.items.len()
    }

    /// The item at this place, counted from the newest, 0.
    pub fn get(&self, place: usize) -> Option<&T>
        ensures { option_copied result ≡ slice_get self.now place }
    {
        let len = self.items.len();
        if place < len {
            self.items.get(len - 1 - place)
        } else {
            None
        }
    }

    /// The item at this place, which is there.
    pub fn at(&self, place: usize) -> &T
        requires { place < length self.now }
        ensures { slice_get self.now place ≡ Some result.now }
    {
        &self.items[self.items.len() - 1 - place]
    }

    /// The items from the oldest to the newest.
    pub fn as_slice(&self) -> &[T]
        ensures { reverse result.now ≡ self.now }
    {
        self.items.as_slice()
    }

    /// The newest item.
    #[tactic(auto, using(crate::proofs::NewestEnd::first_got))]
    pub fn first(&self) -> Option<&T>
        ensures { option_copied result ≡ top_of self.now }
    {
        self.get(0)
    }

    /// Takes the newest item out.
    pub fn pop(&mut self) -> Option<T>
        ensures { MatchOption result ((self.old ≡ []) × (self.new ≡ []))
            (λ item. self.old ≡ item ∷ self.new) }
    {
        self.items.pop()
    }
}

impl<T: Drop> Stack<T> {
    /// Puts an item in front. Want of memory changes nothing.
    pub fn push(&mut self, item: T) -> Result<(), NoMemory>
        ensures ok { OnOk result (self.new ≡ item ∷ self.old) }
        ensures err { OnErr result (self.new ≡ self.old) }
    {
        self.items.push(item)?;
        Ok(())
    }

    /// Takes the newest item out, if there is one.
    pub fn drop_first(&mut self)
        ensures { self.new ≡ rest self.old }
    {
        let _ = self.pop();
    }

    /// Takes all items out.
    pub fn clear(&mut self)
        ensures { self.new ≡ [] }
    {
        self.items.clear();
    }
}
