//! The items of a SET OF in rising order.

ghost use Rattle.std.specs.Prelude.{◌≡◌, ◌∷◌, ◌+◌, ◌<◌, length, IfOk};
ghost use Rattle.asn1_types.specs.Rising.{behind_last, sorted};
ghost use Rattle.asn1_types.specs.Writing.{written};
ghost use Rattle.ber_writing.specs.Merging.{merged, first_less};

use crate::order::less_in_memory;
use asn1_types::{TypeId, TypeTable, Val, Vals};
use osi_base::NoMemory;
use std::alloc::Global;
use std::collections::VecDeque;

/// Whether a value may stand behind the last of these (X.690 11.6).
pub fn follows_last(
    alloc: Global,
    table: &TypeTable,
    of: TypeId,
    before: &[Val],
    value: &Val,
) -> Result<bool, NoMemory>
    ensures { IfOk result (λ may. may ≡ behind_last (written table.now of.0) before.now value.now) }
{
    if before.is_empty() {
        return Ok(true);
    }
    let last = &before[before.len() - 1];
    let less = less_in_memory(alloc, table, of, value, last)?;
    Ok(!less)
}

/// Values in rising order of their DER spellings (X.690 11.6), by merging: as many comparisons as
/// there are values times the logarithm of their number.
pub fn in_order(
    alloc: Global,
    table: &TypeTable,
    of: TypeId,
    values: Vals,
) -> Result<Vals, NoMemory>
    ensures { IfOk result (λ r. r.items ≡ sorted (written table.now of.0) values.items) }
{
    let queue = merge_sorted(alloc, table, of, VecDeque::from(values))?;
    Ok(Vec::from(queue))
}

fn merge_sorted(
    alloc: Global,
    table: &TypeTable,
    of: TypeId,
    values: VecDeque<Val>,
) -> Result<VecDeque<Val>, NoMemory>
    ensures { IfOk result (λ r. r.items ≡ sorted (written table.now of.0) values.items) }
{
    if values.len() < 2 {
        return Ok(values);
    }
    let mut front = values;
    let back = front.split_off(front.len() / 2)?;
    let front = merge_sorted(alloc, table, of, front)?;
    let back = merge_sorted(alloc, table, of, back)?;
    merge(alloc, table, of, front, back)
}

/// Two rising lists as one. Of equal values those of the first stand first.
fn merge(
    alloc: Global,
    table: &TypeTable,
    of: TypeId,
    front: VecDeque<Val>,
    back: VecDeque<Val>,
) -> Result<VecDeque<Val>, NoMemory>
    ensures { IfOk result (λ r. r.items ≡ merged (written table.now of.0) front.items back.items) }
{
    let mut front = front;
    let mut back = back;
    let mut both = VecDeque::new(alloc);
    while !front.is_empty() || !back.is_empty() {
        let value = take_least(alloc, table, of, &mut front, &mut back)?;
        both.push_back(value)?;
    }
    Ok(both)
}

/// The value that stands next.
fn take_least(
    alloc: Global,
    table: &TypeTable,
    of: TypeId,
    front: &mut VecDeque<Val>,
    back: &mut VecDeque<Val>,
) -> Result<Val, NoMemory>
    requires { 0 < length front.old.items + length back.old.items }
    ensures least { IfOk result (λ v. merged (written table.now of.0) front.old.items back.old.items
        ≡ v ∷ merged (written table.now of.0) front.new.items back.new.items) }
    ensures fewer { IfOk result (λ v. length front.new.items + length back.new.items < length
        front.old.items + length back.old.items) }
{
    if back_is_next(alloc, table, of, front, back)? {
        Ok(take_first(back))
    } else {
        Ok(take_first(front))
    }
}

fn take_first(values: &mut VecDeque<Val>) -> Val
    requires { 0 < length values.old.items }
    ensures { values.old.items ≡ result ∷ values.new.items }
{
    match values.pop_front() {
        Some(value) => value,
        None => unreachable!(),
    }
}

/// Whether the second list has the next value.
fn back_is_next(
    alloc: Global,
    table: &TypeTable,
    of: TypeId,
    front: &VecDeque<Val>,
    back: &VecDeque<Val>,
) -> Result<bool, NoMemory>
    ensures { IfOk result (λ b. b ≡ first_less (written table.now of.0) front.now.items
        back.now.items) }
{
    match front.front() {
        None => Ok(true),
        Some(value) => match back.front() {
            None => Ok(false),
            Some(other) => less_in_memory(alloc, table, of, other, value),
        },
    }
}
