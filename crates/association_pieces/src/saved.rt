//! The sets that marks saved.

ghost use Rattle.std.specs.Prelude.{◌≡◌, [], ◌∷◌, suc, nat_lt, slice_get, IfOk, OnOk};
ghost use Rattle.association_sets.specs.end_rules.Sets.{below, newest, next_number};
ghost use Rattle.association_pieces.specs.NewestEnd.{starts_below, rest};

use crate::stack::Stack;
use osi_base::{NoMemory, SetItem, SetList};
use std::alloc::Global;
use std::marker::Model;

/// A set that a mark saved under its number.
#[derive(Debug, Drop)]
pub struct SavedSet {
    number: u32,
    set: SetList,
}

impl Model for SavedSet {
    ghost use Rattle.std.specs.Prelude.{◌<◌};
    ghost use Rattle.osi_base.specs.Limits.{most_32};
    ghost use Rattle.association_sets.specs.end_rules.Sets.{Saved};

    ghost Value = { Saved };

    ghost view = { λ s. record { number = s.number; set = s.set } };

    ghost invariant = { λ s. s.number < most_32 };
}

impl SavedSet {
    /// A set with its number; `NoMemory` for the number 4,294,967,295.
    fn new(number: u32, set: SetList) -> Result<SavedSet, NoMemory>
        ensures { IfOk result (λ saved. saved ≡ record { number = number; set = set }) }
    {
        if number == u32::MAX {
            return Err(NoMemory);
        }
        Ok(SavedSet { number, set })
    }

    /// Whether its number is below this one.
    fn is_below(&self, n: u32) -> bool
        ensures { result ≡ nat_lt self.now.number n }
    {
        self.number < n
    }

    /// The number behind its own.
    fn next(&self) -> u32
        ensures { result ≡ suc self.now.number }
    {
        self.number + 1
    }

    /// The set.
    fn set(&self) -> &[SetItem]
        ensures { result.now ≡ self.now.set }
    {
        self.set.as_slice()
    }
}

/// The sets that marks saved, newest first.
#[derive(Debug, Drop)]
pub struct SavedSets {
    marks: Stack<SavedSet>,
}

impl Model for SavedSets {
    ghost use Rattle.std.specs.Prelude.{List};
    ghost use Rattle.association_sets.specs.end_rules.Sets.{Saved};

    ghost Value = { List Saved };

    ghost view = { λ s. s.marks };
}

impl SavedSets {
    /// Nothing saved.
    pub fn new(alloc: Global) -> SavedSets
        ensures { result ≡ [] }
    {
        SavedSets {
            marks: Stack::new(alloc),
        }
    }

    /// Saves a set under a number. `NoMemory` also for the number 4,294,967,295, which no end
    /// reaches.
    pub fn push(&mut self, number: u32, set: SetList) -> Result<(), NoMemory>
        ensures { OnOk result (self.new ≡ record { number = number; set = set } ∷ self.old) }
    {
        self.marks.push(SavedSet::new(number, set)?)?;
        Ok(())
    }

    /// The number of the next mark.
    pub fn next_number(&self) -> u32
        ensures { result ≡ next_number self.now }
    {
        match self.marks.first() {
            None => 0,
            Some(mark) => mark.next(),
        }
    }

    /// The set that was saved last under a number below this one; none where there is none.
    #[tactic(auto, using(crate::proofs::NewestEnd::left_at))]
    pub fn set_below(&self, n: u32) -> &[SetItem]
        ensures { result.now ≡ newest (below n self.now) }
    {
        for place in 0..self.marks.len() {
            let mark = self.marks.at(place);
            if mark.is_below(n) {
                return mark.set();
            }
        }
        &[]
    }

    /// Whether the newest mark has a number below this one, or there is none.
    fn starts_below(&self, n: u32) -> bool
        ensures { result ≡ starts_below n self.now }
    {
        match self.marks.first() {
            None => true,
            Some(mark) => mark.is_below(n),
        }
    }

    /// Forgets the newest mark.
    fn drop_first(&mut self)
        ensures { self.new ≡ rest self.old }
    {
        self.marks.drop_first();
    }

    /// Forgets the marks from this number on.
    pub fn cut(&mut self, n: u32)
        ensures { self.new ≡ below n self.old }
    {
        while !self.starts_below(n) {
            self.drop_first();
        }
    }
}
