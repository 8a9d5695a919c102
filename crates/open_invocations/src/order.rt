//! The open invocations in post order, in which they are cut.

ghost use Rattle.std.specs.Prelude.{◌≡◌, ◌++◌, ◌<◌, length, map, IfOk, OnOk, IfSome};
ghost use Rattle.std.specs.List.{position_from};
ghost use Rattle.rose_roles.specs.end_rules.State.{is_parent_of, before_parent, post_order};
ghost use Rattle.rose_roles.specs.end_rules.Faults.{cut_of};

use crate::open_call::OpenCall;
use dialogue::{Indication, Indications};
use osi_base::NoMemory;
use std::alloc::Global;

/// The place of the invocation to which this one is linked.
fn parent_place(ordered: &[OpenCall], child: &OpenCall) -> Option<usize>
    ensures place { result ≡ position_from (is_parent_of child.now) 0 ordered.now }
    ensures bound { IfSome result (λ place. place < length ordered.now) }
{
    ordered.iter().position(|call| call.is_parent_of(child))
}

/// Puts an invocation right before its parent, or last where it has none.
#[tactic(auto, using(crate::proofs::Orders::put_here, crate::proofs::Orders::put_last))]
fn put(ordered: &mut Vec<OpenCall>, child: OpenCall) -> Result<(), NoMemory>
    ensures { OnOk result (ordered.new.items ≡ before_parent child ordered.old.items) }
{
    match parent_place(ordered.as_slice(), &child) {
        Some(place) => ordered.insert(place, child)?,
        None => ordered.push(child)?,
    }
    Ok(())
}

/// The invocations in post order: children before their parents, and roots and siblings in order
/// of opening.
fn post_order(alloc: Global, opens: &[OpenCall]) -> Result<Vec<OpenCall>, NoMemory>
    ensures { IfOk result (λ ordered. ordered.items ≡ post_order opens.now) }
{
    let mut ordered = Vec::new(alloc);
    for call in opens {
        put(&mut ordered, *call)?;
    }
    Ok(ordered)
}

/// Tells that these invocations are cut.
fn push_cuts(ordered: &[OpenCall], shown: &mut Indications) -> Result<(), NoMemory>
    ensures { OnOk result (shown.new ≡ shown.old ++ map cut_of ordered.now) }
{
    for call in ordered {
        shown.push(Indication::Cut {
            own: call.own,
            id: call.id,
        })?;
    }
    Ok(())
}

/// Tells that the open invocations are cut, children before their parents.
pub fn tell_cuts(alloc: Global, opens: &[OpenCall], shown: &mut Indications) -> Result<(), NoMemory>
    ensures { OnOk result (shown.new ≡ shown.old ++ map cut_of (post_order opens.now)) }
{
    let ordered = post_order(alloc, opens)?;
    push_cuts(ordered.as_slice(), shown)
}
