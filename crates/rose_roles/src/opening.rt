//! Opening and closing an invocation in the forest and among those of one end.

ghost use Rattle.std.specs.Prelude.{◌≡◌, ℤ, pos, ◌∷◌, ◌++◌, [], None, true, false, not, OnOk, OnErr, if◌then◌else◌};
ghost use Rattle.std.specs.Option.{option_map};
ghost use Rattle.std.specs.Ordering.{int_cmp, int_eq};
ghost use Rattle.std.specs.BTreeMap.{insert_entry, is_at};
ghost use Rattle.std.specs.Map.{remove_entry};
ghost use Rattle.linked_ops.specs.Entries.{is_open, is_open_or_none, closed};
ghost use Rattle.rose_roles.specs.Calls.{called, key_of};

use crate::invoked_with::InvokedWith;
use linked_ops::{Forest, Key};
use osi_base::NoMemory;
use std::collections::BTreeMap;

/// The key above an invocation of this end: it is of the other end.
fn above(own: bool, linked: Option<i64>) -> Option<Key>
    ensures { result ≡ option_map (key_of (not own)) linked }
{
    match linked {
        Some(id) => Some(Key { own: !own, id }),
        None => None,
    }
}

/// The key of the own invocation with this number.
pub(crate) fn own_key(number: u32) -> Key
    ensures { result ≡ key_of true (pos number) }
{
    Key {
        own: true,
        id: number as i64,
    }
}

/// The key of an invocation of one end.
pub(crate) fn key_of(own: bool, id: &i64) -> Key
    ensures { result ≡ key_of own id.now }
{
    Key { own, id: *id }
}

/// What is called under an identifier.
pub(crate) fn called(kept: &BTreeMap<i64, InvokedWith>, id: &i64) -> Option<InvokedWith>
    ensures { result ≡ called id.now kept.now.entries }
{
    kept.get(id).copied()
}

/// Puts what is called under a key; want of memory changes nothing.
fn put(kept: &mut BTreeMap<i64, InvokedWith>, key: &Key, call: InvokedWith) -> Result<(), NoMemory>
    ensures kept { OnOk result (kept.new.entries ≡ insert_entry int_cmp kept.old.entries key.now.id
        call) }
    ensures updated { OnOk result ((q : ℤ) → called q kept.new.entries
        ≡ (if int_eq key.now.id q then Some call else called q kept.old.entries)) }
    ensures err { OnErr result (kept.new.entries ≡ kept.old.entries) }
{
    match kept.insert(key.id, call) {
        Ok(_) => Ok(()),
        Err(_) => Err(NoMemory),
    }
}

/// Takes away what is called under a key.
fn take_away(kept: &mut BTreeMap<i64, InvokedWith>, key: &Key)
    ensures kept { kept.new.entries ≡ remove_entry (is_at (int_cmp key.now.id)) kept.old.entries }
    ensures updated { (q : ℤ) → called q kept.new.entries
        ≡ (if int_eq key.now.id q then None else called q kept.old.entries) }
{
    kept.remove(&key.id);
}

/// Opens an invocation of one end, under an open one of the other or as a root. Want of memory
/// changes nothing.
pub(crate) fn enter(
    kept: &mut BTreeMap<i64, InvokedWith>,
    forest: &mut Forest,
    key: &Key,
    call: InvokedWith,
    linked: Option<i64>,
) -> Result<(), NoMemory>
    requires shut { called key.now.id kept.old.entries ≡ None }
    requires fresh { is_open key.now forest.old ≡ false }
    requires placed { is_open_or_none (option_map (key_of (not key.now.own)) linked) forest.old
        ≡ true }
    ensures updated { OnOk result ((q : ℤ) → called q kept.new.entries
        ≡ (if int_eq key.now.id q then Some call else called q kept.old.entries)) }
    ensures forest { OnOk result (forest.new ≡ forest.old
        ++ (key.now, option_map (key_of (not key.now.own)) linked) ∷ []) }
    ensures err { OnErr result ((kept.new.entries ≡ kept.old.entries) × (forest.new ≡ forest.old)) }
{
    let parent = above(key.own, linked);
    put(kept, key, call)?;
    match forest.open(*key, parent) {
        Ok(()) => Ok(()),
        Err(_) => {
            take_away(kept, key);
            Err(NoMemory)
        }
    }
}

/// Closes an invocation of one end, if it is open, whose children are roots then.
pub(crate) fn leave(kept: &mut BTreeMap<i64, InvokedWith>, forest: &mut Forest, key: &Key)
    ensures kept { (q : ℤ) → called q kept.new.entries
        ≡ (if int_eq key.now.id q then None else called q kept.old.entries) }
    ensures forest { forest.new ≡ closed key.now forest.old }
{
    take_away(kept, key);
    forest.close(*key);
}
