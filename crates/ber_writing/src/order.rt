//! The order of the items of a SET OF: by their DER spellings, octet by octet (X.690 11.6).

ghost use Rattle.std.specs.Prelude.{◌≡◌, ◌≤◌, ℕ, List, length, IfOk, IfSome};
ghost use Rattle.osi_base.specs.Limits.{most_spelled};
ghost use Rattle.asn1_types.specs.ValueView.{values_of};
ghost use Rattle.asn1_types.specs.Rising.{is_less};
ghost use Rattle.ber_writing.specs.Comparing.{IsApart};
ghost use Rattle.ber_writing.specs.Short.{told_less, stand_so, stand_behind, stand_rising, set_stands};
ghost use Rattle.asn1_types.specs.Writing.{written};

use crate::compare::values_compared;
use crate::length::ber_len;
use crate::octet::octet_at;
use crate::pieces::{Compared, octets_compared};
use crate::writing::ber_octets;
use asn1_types::{Node, TypeId, TypeTable, Val};
use osi_base::NoMemory;
use std::alloc::Global;

/// How many octets a spelling of a value that fits may have.
pub(crate) const MOST: u64 = 4_294_967_295;

/// Whether the DER spelling of a value is less than that of another, octet by octet; `None` where
/// one of them has more than 4,294,967,295 octets. It takes time linear in values that fit, and no
/// memory.
#[tactic(auto, unfolding(asn1_types::specs::Writing::written))]
pub fn is_less(table: &TypeTable, of: TypeId, a: &Val, b: &Val) -> Option<bool>
    ensures { result ≡ told_less (written table.now of.0 a.now) (written table.now of.0 b.now) }
{
    match values_compared(table, of, None, a, b) {
        Some(told) => short_less(told),
        None => long_less(table, of, a, b),
    }
}

/// Whether octets are less of which this was told; `None` where they have more than 4,294,967,295.
fn short_less(told: Compared) -> Option<bool>
    ensures { (xs ys : List ℕ) → IsApart told xs ys → result ≡ told_less xs ys }
{
    if MOST < told.len || MOST < told.other {
        return None;
    }
    Some(told.order.is_lt())
}

/// As `is_less`, octet by octet, each found from the front: of values that don't fit.
#[tactic(auto, unfolding(asn1_types::specs::Writing::written))]
#[inline(never)]
fn long_less(table: &TypeTable, of: TypeId, a: &Val, b: &Val) -> Option<bool>
    ensures { result ≡ told_less (written table.now of.0 a.now) (written table.now of.0 b.now) }
{
    let len = ber_len(table, of, a);
    let other = ber_len(table, of, b);
    if MOST < len || MOST < other {
        None
    } else {
        Some(each_less(table, of, a, len, b, other))
    }
}

/// As `is_less`, of spellings of these lengths.
#[tactic(auto, unfolding(asn1_types::specs::Writing::written))]
fn each_less(table: &TypeTable, of: TypeId, a: &Val, len: u64, b: &Val, other: u64) -> bool
    requires len { len ≡ length (written table.now of.0 a.now) }
    requires other { other ≡ length (written table.now of.0 b.now) }
    requires short { len ≤ most_spelled }
    requires short_other { other ≤ most_spelled }
    ensures { result ≡ is_less (written table.now of.0 a.now) (written table.now of.0 b.now) }
{
    for index in 0..len.min(other) {
        let octet = octet_at(table, of, None, a, index);
        let against = octet_at(table, of, None, b, index);
        if octet != against {
            return octet < against;
        }
    }
    len < other
}

/// As `is_less`, of spellings of any length: those of values that don't fit, and those that have
/// 2^64 octets or more, are written into memory.
pub(crate) fn less_in_memory(
    alloc: Global,
    table: &TypeTable,
    of: TypeId,
    a: &Val,
    b: &Val,
) -> Result<bool, NoMemory>
    ensures { IfOk result (λ less. less ≡ is_less (written table.now of.0 a.now)
        (written table.now of.0 b.now)) }
{
    match less_by_pieces(table, of, a, b) {
        Some(less) => Ok(less),
        None => {
            let spelled = ber_octets(alloc, table, of, a)?;
            let against = ber_octets(alloc, table, of, b)?;
            Ok(octets_less(spelled.as_slice(), against.as_slice()))
        }
    }
}

/// As `is_less`, where it is told by the pieces of the values and their lengths have 64 bits.
#[tactic(auto, unfolding(asn1_types::specs::Writing::written))]
fn less_by_pieces(table: &TypeTable, of: TypeId, a: &Val, b: &Val) -> Option<bool>
    ensures { IfSome result (λ less. less ≡ is_less (written table.now of.0 a.now)
        (written table.now of.0 b.now)) }
{
    let told = values_compared(table, of, None, a, b)?;
    if told.len == u64::MAX || told.other == u64::MAX {
        return None;
    }
    let less = told.order.is_lt();
    Some(less)
}

#[tactic(auto, using(crate::proofs::ComparedLaws::less_is))]
fn octets_less(a: &[u8], b: &[u8]) -> bool
    ensures { result ≡ is_less a.now b.now }
{
    octets_compared(a, b).is_lt()
}

fn stand_so(table: &TypeTable, of: TypeId, before: &Val, value: &Val) -> bool
    ensures { result ≡ stand_so (written table.now of.0) before.now value.now }
{
    match is_less(table, of, value, before) {
        Some(less) => !less,
        None => false,
    }
}

fn stand_behind(table: &TypeTable, of: TypeId, first: &Val, others: &[Val]) -> bool
    ensures { result ≡ stand_behind (written table.now of.0) first.now (values_of others.now) }
{
    let mut before = first;
    for value in others {
        if !stand_so(table, of, before, value) {
            return false;
        }
        before = value;
    }
    true
}

fn stand_rising(table: &TypeTable, of: TypeId, values: &[Val]) -> bool
    ensures { result ≡ stand_rising (written table.now of.0) (values_of values.now) }
{
    match values {
        [] => true,
        [first, others @ ..] => stand_behind(table, of, first, others),
    }
}

/// Whether the items of a SET OF rise, and have short spellings.
pub(crate) fn set_stands(table: &TypeTable, of: TypeId, value: &Val) -> bool
    ensures { result ≡ set_stands (written table.now of.0) value.now }
{
    match &value.node {
        Node::List(values) => stand_rising(table, of, values),
        _ => false,
    }
}
