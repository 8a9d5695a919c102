//! Sets as restarts carry them (this project's own rule).

ghost use Rattle.std.specs.Prelude.{◌≡◌, ◌&&◌, nat_eq, IfOk, [], ◌∷◌};
ghost use Rattle.association_ground.specs.end_rules.Sets.{listed, same_lists, same_name};

use association_ground::same_name;
use osi_base::{ListOf, NoMemory, RestoredItem, RestoredList, SetItem};
use std::alloc::Global;

/// A context with the name of its transfer syntax.
fn listed_item(alloc: Global, item: &SetItem) -> Result<RestoredItem, NoMemory>
    ensures { IfOk result (λ r. (r ∷ []) ≡ listed (item.now ∷ [])) }
{
    Ok(RestoredItem {
        id: item.id,
        transfer: item.pair.transfer.name(alloc)?,
    })
}

/// A set as a restart carries it: identifiers with their transfer syntaxes.
pub fn restored_list(alloc: Global, set: &[SetItem]) -> Result<RestoredList, NoMemory>
    ensures { IfOk result (λ list. list ≡ listed set.now) }
{
    let mut list = ListOf::new(alloc);
    for item in set {
        list.push(listed_item(alloc, item)?)?;
    }
    Ok(list)
}

/// Whether two items are one.
fn same_item(a: &RestoredItem, b: &RestoredItem) -> bool
    ensures { result ≡ (nat_eq a.now.id b.now.id && same_name a.now.transfer b.now.transfer) }
{
    a.id == b.id && same_name(a.transfer.arcs(), b.transfer.arcs())
}

/// Whether two such lists are one.
#[tactic(auto, using(crate::proofs::Fits::all_same))]
pub fn same_lists(xs: &[RestoredItem], ys: &[RestoredItem]) -> bool
    ensures { result ≡ same_lists xs.now ys.now }
{
    for (place, x) in xs.iter().enumerate() {
        if place >= ys.len() {
            return false;
        }
        if !same_item(x, &ys[place]) {
            return false;
        }
    }
    ys.len() <= xs.len()
}
