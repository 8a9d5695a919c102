//! Look-ups in a set of contexts, what may be sent on it, a context put into it, and its copy.

ghost use Rattle.std.specs.Prelude.{◌≡◌, IfOk, OnOk, is_some};
ghost use Rattle.std.specs.Option.{option_copied};
ghost use Rattle.association_ground.specs.end_rules.Sets.{put, may_send, has_abstract, lowest_with, carrier, same_name, is_fixed};

use crate::alteration::Alteration;
use crate::asking::is_deleted_in;
use association_ground::{is_acse, is_rtse, same_name};
use osi_base::{Copied, ListOf, NoMemory, Pair, SetItem, SetList, pair_of, place_of};
use std::alloc::Global;

/// Puts a context into a set, in the place of one with its identifier.
pub fn put_context(items: &mut Vec<SetItem>, id: u32, pair: Pair) -> Result<(), NoMemory>
    ensures { OnOk result (items.new.items ≡ put id pair items.old.items) }
{
    let new = SetItem { id, pair };
    match place_of(items, new.id) {
        Ok(place) => {
            items[place] = new;
            Ok(())
        }
        Err(place) => {
            items.insert(place, new)?;
            Ok(())
        }
    }
}

/// Whether the pair has this abstract syntax.
pub fn has_abstract(pair: Option<&Pair>, name: &[u32]) -> bool
    ensures { result ≡ has_abstract name.now (option_copied pair.entry) }
{
    match pair {
        None => false,
        Some(pair) => has_name(pair, name),
    }
}

/// Whether the pair has this abstract syntax.
pub fn has_name(pair: &Pair, name: &[u32]) -> bool
    ensures { result ≡ same_name pair.now.abstract_name name.now }
{
    same_name(pair.abstract_name.arcs(), name)
}

/// Whether the context is one of association control or of reliable transfer, which stay.
pub fn is_fixed(pair: Option<&Pair>) -> bool
    ensures { result ≡ is_fixed (option_copied pair.entry) }
{
    match pair {
        None => false,
        Some(pair) => is_acse(pair.abstract_name.arcs()) || is_rtse(pair.abstract_name.arcs()),
    }
}

/// Whether values may be sent on a context: it is in the set, and no own alteration deletes it.
pub fn may_send(held: &[SetItem], own: &[Alteration], id: u32) -> bool
    ensures { result ≡ may_send held.now own.now id }
{
    pair_of(held, id).is_some() && !is_deleted_in(own, id)
}

/// The lowest identifier of the set with this abstract syntax that may be sent.
pub fn lowest_with(name: &[u32], own: &[Alteration], held: &[SetItem]) -> Option<u32>
    ensures { result ≡ lowest_with name.now own.now held.now }
{
    for item in held {
        if has_name(&item.pair, name) && !is_deleted_in(own, item.id) {
            return Some(item.id);
        }
    }
    None
}

/// The identifier on which what belongs to a context travels: the context itself where values may
/// be sent on it, else the lowest of the module's abstract syntax on which they may (this project's
/// own rule).
pub fn carrier(name: &[u32], held: &[SetItem], own: &[Alteration], id: u32) -> Option<u32>
    ensures { result ≡ carrier name.now held.now own.now id }
{
    if may_send(held, own, id) {
        Some(id)
    } else {
        lowest_with(name, own, held)
    }
}

/// A copy of a set.
pub fn copy_set(alloc: Global, items: &[SetItem]) -> Result<SetList, NoMemory>
    ensures { IfOk result (λ list. list ≡ items.now) }
{
    let mut copies = ListOf::new(alloc);
    for item in items {
        copies.push(item.copy(alloc)?)?;
    }
    Ok(copies)
}
