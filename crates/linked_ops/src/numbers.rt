//! The numbers of openings by their keys.

ghost use Rattle.std.specs.Prelude.{◌≡◌, None, Some, OnOk, OnErr, if◌then◌else◌};
ghost use Rattle.linked_ops.specs.declared.key.Key.{Key as one_key};
ghost use Rattle.linked_ops.specs.Keys.{same_key};
ghost use Rattle.linked_ops.specs.Numbers.{number_in};
ghost use Rattle.linked_ops.specs.Kept.{IsAbove};

use crate::key::Key;
use osi_base::NoMemory;
use std::alloc::Global;
use std::collections::BTreeMap;

/// The number of the opening of each open key of either end.
#[derive(Drop)]
pub(crate) struct Numbers {
    pub(crate) own: BTreeMap<i64, u64>,
    pub(crate) peer: BTreeMap<i64, u64>,
}

impl Numbers {
    /// No keys.
    pub(crate) fn new(alloc: Global) -> Numbers
        ensures { (k : one_key) → number_in k result ≡ None }
    {
        Numbers {
            own: BTreeMap::new(alloc),
            peer: BTreeMap::new(alloc),
        }
    }

    /// The number of a key.
    pub(crate) fn get(&self, key: &Key) -> Option<u64>
        ensures { result ≡ number_in key.now self.now }
    {
        if key.own {
            self.own.get(&key.id).copied()
        } else {
            self.peer.get(&key.id).copied()
        }
    }

    /// The number of the key above, where there is to be one; the key where it isn't open.
    pub(crate) fn above(&self, parent: Option<Key>) -> Result<Option<u64>, Key>
        ensures { IsAbove self.now parent result }
    {
        match parent {
            None => Ok(None),
            Some(parent) => match self.get(&parent) {
                None => Err(parent),
                Some(number) => Ok(Some(number)),
            },
        }
    }

    /// Gives a key its number. Want of memory changes nothing.
    pub(crate) fn put(&mut self, key: &Key, number: u64) -> Result<(), NoMemory>
        ensures ok { OnOk result ((k : one_key) → number_in k self.new
            ≡ (if same_key key.now k then Some number else number_in k self.old)) }
        ensures err { OnErr result ((k : one_key) → number_in k self.new ≡ number_in k self.old) }
    {
        let kept = if key.own {
            self.own.insert(key.id, number)
        } else {
            self.peer.insert(key.id, number)
        };
        match kept {
            Ok(_) => Ok(()),
            Err(_) => Err(NoMemory),
        }
    }

    /// Takes the number of a key away.
    pub(crate) fn take(&mut self, key: &Key) -> Option<u64>
        ensures number { result ≡ number_in key.now self.old }
        ensures taken { (k : one_key) → number_in k self.new
            ≡ (if same_key key.now k then None else number_in k self.old) }
    {
        if key.own {
            self.own.remove(&key.id)
        } else {
            self.peer.remove(&key.id)
        }
    }
}
