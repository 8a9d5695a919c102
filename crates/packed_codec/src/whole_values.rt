//! Reading whole values.

ghost use Rattle.std.specs.Prelude.{◌≡◌, ℕ, ◌≤◌, ◌<◌, length, take, IfOk};
ghost use Rattle.osi_base.specs.Limits.{most_octets};
ghost use Rattle.asn1_types.specs.Value as tree;
ghost use Rattle.packed_codec.specs.Reading.{Gives};
ghost use Rattle.packed_codec.specs.Rules.{read_at};
ghost use Rattle.packed_codec.specs.Laws.{Packed, IsRead};

use crate::fault::PackedFault;
use crate::reading::value;
use crate::spot::Spot;
use asn1_types::{TypeId, TypeTable, Val};
use std::alloc::Global;

/// How many octets a value may have.
pub const MOST_VALUE_OCTETS: u32 = 262_144;

/// How many items the lists of one value may have together.
const MOST_ITEMS: u32 = 131_072;

/// A value that was read, and how many octets spelled it.
#[derive(Debug, Drop)]
pub struct Read {
    /// The value.
    pub value: Val,
    /// How many octets spelled it, from the first one on.
    pub used: usize,
}

/// The value of this type that the octets begin with in the packed syntax, of at most 262,144
/// octets, whose lists have together at most 131,072 items. Octets that follow are left alone. An
/// `Any` has no packed spelling.
pub fn packed_read(
    alloc: Global,
    table: &TypeTable,
    of: TypeId,
    bytes: &[u8],
) -> Result<Read, PackedFault>
    requires { of.0 < length table.now }
    // What is read is spelled by the octets used.
    ensures found { IfOk result (λ r. (r.used ≤ length bytes.now) × Packed table.now of.0
        most_octets r.value (take r.used bytes.now)) }
    // What the octets spell is read, unless memory is refused.
    ensures only { (v : tree.Value) (n : ℕ) → n ≤ length bytes.now →
        Packed table.now of.0 most_octets v (take n bytes.now) → IsRead result v n }
    // The fault is the first from the left.
    ensures exact { Gives (λ r. (r.value, r.used)) result
        (read_at table.now of.0 most_octets bytes.now) }
{
    read_whole(alloc, table, of, bytes, MOST_VALUE_OCTETS)
}

/// As `packed_read`, with at most `most` octets.
pub fn packed_read_within(
    alloc: Global,
    table: &TypeTable,
    of: TypeId,
    bytes: &[u8],
    most: u32,
) -> Result<Read, PackedFault>
    requires { of.0 < length table.now }
    ensures found { IfOk result (λ r. (r.used ≤ length bytes.now) × Packed table.now of.0 most
        r.value (take r.used bytes.now)) }
    ensures only { (v : tree.Value) (n : ℕ) → n ≤ length bytes.now →
        Packed table.now of.0 most v (take n bytes.now) → IsRead result v n }
    ensures exact { Gives (λ r. (r.value, r.used)) result (read_at table.now of.0 most bytes.now) }
{
    read_whole(alloc, table, of, bytes, most)
}

#[tactic(auto, unfolding(crate::specs::Rules::read_at))]
fn read_all(
    alloc: Global,
    table: &TypeTable,
    of: TypeId,
    bytes: &[u8],
    limit: u32,
) -> Result<Read, PackedFault>
    requires { of.0 < length table.now }
    ensures exact { Gives (λ r. (r.value, r.used)) result (read_at table.now of.0 limit bytes.now) }
{
    let start = Spot {
        place: 0,
        rest: bytes,
        left: MOST_ITEMS,
    };
    let (value, after) = value(alloc, table, of, limit, start)?;
    Ok(Read {
        value,
        used: after.place,
    })
}

fn read_whole(
    alloc: Global,
    table: &TypeTable,
    of: TypeId,
    bytes: &[u8],
    limit: u32,
) -> Result<Read, PackedFault>
    requires { of.0 < length table.now }
    ensures found { IfOk result (λ r. (r.used ≤ length bytes.now) × Packed table.now of.0 limit
        r.value (take r.used bytes.now)) }
    ensures only { (v : tree.Value) (n : ℕ) → n ≤ length bytes.now →
        Packed table.now of.0 limit v (take n bytes.now) → IsRead result v n }
    ensures exact { Gives (λ r. (r.value, r.used)) result (read_at table.now of.0 limit bytes.now) }
{
    read_all(alloc, table, of, bytes, limit)
}
