//! What one set has and another hasn't.

ghost use Rattle.std.specs.Prelude.{◌≡◌, ◌≤◌, ◌++◌, ◌&&◌, ◌∷◌, [], nat_eq, unwrap_or, if◌then◌else◌, Some, IfOk, OnOk, length, drop};
ghost use Rattle.context_sets.specs.Sets.{IsRising};
ghost use Rattle.context_restore.specs.Versions.{same_syntax, same_pair, missing, ids, without, with_all, applied};
ghost use Rattle.context_restore.specs.Chain.{from_id, begins_with, back_of};

use crate::node::VersionNode;
use context_sets::{Contexts, put_context};
use osi_base::{Copied, ListOf, NoMemory, Pair, SetItem, SetList, Syntax, remove_context};
use std::alloc::Global;

fn same_syntax(a: Syntax, b: Syntax) -> bool
    ensures { result ≡ same_syntax a b }
{
    match (a, b) {
        (Syntax::Ber, Syntax::Ber) => true,
        (Syntax::Der, Syntax::Der) => true,
        (Syntax::Packed, Syntax::Packed) => true,
        _ => false,
    }
}

fn same_pair(a: &Pair, b: &Pair) -> bool
    ensures { result ≡ same_pair a.now b.now }
{
    a.abstract_name.arcs() == b.abstract_name.arcs() && same_syntax(a.transfer, b.transfer)
}

/// The first place from this one on whose identifier isn't below `id`.
fn first_from(set: &[SetItem], from: usize, id: u32) -> usize
    requires { from ≤ length set.now }
    ensures within { result ≤ length set.now }
    ensures skips { drop result set.now ≡ from_id id (drop from set.now) }
{
    let mut place = from;
    while place < set.len() && set[place].id < id {
        place += 1;
    }
    place
}

/// Whether the set has this very context at this place.
fn has_at(set: &[SetItem], place: usize, item: &SetItem) -> bool
    requires { place ≤ length set.now }
    ensures { result ≡ begins_with (drop place set.now) item.now }
{
    match set.get(place) {
        None => false,
        Some(first) => first.id == item.id && same_pair(&first.pair, &item.pair),
    }
}

/// Puts a copy of a context at the end of a list, where the other set hasn't it.
fn push_missing(
    alloc: Global,
    list: &mut SetList,
    item: &SetItem,
    is_there: bool,
) -> Result<(), NoMemory>
    ensures { OnOk result (list.new ≡ list.old ++ (if is_there then [] else item.now ∷ [])) }
{
    if is_there {
        return Ok(());
    }
    list.push(item.copy(alloc)?)
}

/// The contexts of a set that the other hasn't, or has with another pair. Both sets are gone
/// through once, side by side.
pub(crate) fn missing(
    alloc: Global,
    other: &[SetItem],
    set: &[SetItem],
) -> Result<SetList, NoMemory>
    requires other { IsRising other.now }
    requires rises { IsRising set.now }
    ensures { IfOk result (λ list. list ≡ missing other.now set.now) }
{
    let mut list = ListOf::new(alloc);
    let mut place = 0;
    for item in set {
        place = first_from(other, place, item.id);
        push_missing(alloc, &mut list, item, has_at(other, place, item))?;
    }
    Ok(list)
}

/// Whether a node adds nothing and takes nothing out.
fn leads_nowhere(node: &VersionNode) -> bool
    ensures { result ≡ (nat_eq (length node.now.added) 0 && nat_eq (length node.now.lost) 0) }
{
    node.added.len() == 0 && node.lost.len() == 0
}

/// A copy of a set to which a node leads from the newest one. A set that hasn't changed isn't
/// copied.
pub(crate) fn changed_set(
    node: &VersionNode,
    newest: &[SetItem],
    set: &Contexts,
) -> Result<Option<SetList>, NoMemory>
    requires newest_rises { IsRising newest.now }
    requires rises { IsRising set.now.set }
    requires added { node.now.added ≡ missing newest.now set.now.set }
    requires lost { node.now.lost ≡ missing set.now.set newest.now }
    ensures { IfOk result (λ changed. unwrap_or changed newest.now ≡ set.now.set) }
{
    if leads_nowhere(node) {
        return Ok(None);
    }
    Ok(Some(set.list()?))
}

/// Puts the set that there is now in the place of the newest one, where it has changed.
pub(crate) fn renew(newest: &mut SetList, changed: Option<SetList>)
    ensures { newest.new ≡ unwrap_or changed newest.old }
{
    if let Some(list) = changed {
        *newest = list;
    }
}

/// Takes the identifiers of these contexts out of a set.
fn remove_all(set: &mut Vec<SetItem>, items: &[SetItem])
    ensures { set.new.items ≡ without (ids items.now) set.old.items }
{
    for item in items {
        remove_context(set, item.id);
    }
}

/// Puts copies of these contexts into a set.
fn put_all(alloc: Global, set: &mut Vec<SetItem>, items: &[SetItem]) -> Result<(), NoMemory>
    ensures { OnOk result (set.new.items ≡ with_all items.now set.old.items) }
{
    for item in items {
        set.reserve(1)?;
        put_context(set, item.copy(alloc)?);
    }
    Ok(())
}

/// Leads the set of a version back to that of its parent.
pub(crate) fn undo(
    alloc: Global,
    set: &mut Vec<SetItem>,
    node: &VersionNode,
) -> Result<(), NoMemory>
    ensures { OnOk result (set.new.items ≡ applied (back_of (Some node.now)) set.old.items) }
{
    remove_all(set, node.added.as_slice());
    put_all(alloc, set, node.lost.as_slice())
}
