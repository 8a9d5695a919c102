//! Reading whole values.

ghost use Rattle.std.specs.Prelude.{◌≡◌, ℕ, ◌≤◌, ◌<◌, false, true, length, take, IfOk, IfSome};
ghost use Rattle.std.specs.List.{AllByRecursion};
ghost use Rattle.osi_base.specs.Limits.{most_octets};
ghost use Rattle.osi_base.specs.OctetPlaces.{HasPlaces};
ghost use Rattle.asn1_types.specs.Rows.{begins, rows_of_parts};
ghost use Rattle.asn1_types.specs.Value as tree;
ghost use Rattle.ber_spelling.specs.Reading.{Gives, GoesOn, IsBehind, opened_of, spot_of};
ghost use Rattle.ber_spelling.specs.Rules.{plain, outermost, reads, sequence_at, read_at};
ghost use Rattle.ber_spelling.specs.Spelling.{Spells};
ghost use Rattle.ber_reading.specs.Calls.{IsRead, GivesRead};

use crate::reading::{sequence, value};
use crate::short_parts::first_identifier;
use asn1_types::{Class, Parts, TypeId, TypeRow, TypeTable, Val};
use ber_spelling::{Opened, ReadFault, Scope, Spot, Tag, identifier_octets};
use std::alloc::Global;

/// How many octets a value may have.
pub const MOST_VALUE_OCTETS: u32 = 262_144;

/// A value that was read, and how many octets spelled it.
#[derive(Debug, Drop)]
pub struct Read {
    /// The value.
    pub value: Val,
    /// How many octets spelled it, from the first one on.
    pub used: usize,
}

/// The value of this type that the octets begin with, in BER (X.690 8), of at most 262,144 octets.
/// Octets that follow are left alone.
pub fn ber_read(
    alloc: Global,
    table: &TypeTable,
    of: TypeId,
    bytes: &[u8],
) -> Result<Read, ReadFault>
    requires { of.0 < length table.now }
    // What is read is spelled by the octets used.
    ensures found { IfOk result (λ r. (r.used ≤ length bytes.now) × Spells table.now of.0 false
        most_octets r.value (take r.used bytes.now)) }
    // What the octets spell is read, unless memory is refused.
    ensures only { (v : tree.Value) (n : ℕ) → n ≤ length bytes.now →
        Spells table.now of.0 false most_octets v (take n bytes.now) → IsRead result v n }
    // The fault is the first from the left.
    ensures exact { Gives (λ r. (r.value, r.used)) result
        (read_at table.now of.0 false most_octets bytes.now) }
{
    read_whole(alloc, table, of, bytes, MOST_VALUE_OCTETS, false)
}

/// As `ber_read`, with at most `most` octets.
pub fn ber_read_within(
    alloc: Global,
    table: &TypeTable,
    of: TypeId,
    bytes: &[u8],
    most: u32,
) -> Result<Read, ReadFault>
    requires { of.0 < length table.now }
    ensures found { IfOk result (λ r. (r.used ≤ length bytes.now) × Spells table.now of.0 false most
        r.value (take r.used bytes.now)) }
    ensures only { (v : tree.Value) (n : ℕ) → n ≤ length bytes.now →
        Spells table.now of.0 false most v (take n bytes.now) → IsRead result v n }
    ensures exact { Gives (λ r. (r.value, r.used)) result
        (read_at table.now of.0 false most bytes.now) }
{
    read_whole(alloc, table, of, bytes, most, false)
}

/// The value of this type that the octets begin with, in DER alone (X.690 10), of at most 262,144
/// octets. Octets that follow are left alone.
pub fn der_read(
    alloc: Global,
    table: &TypeTable,
    of: TypeId,
    bytes: &[u8],
) -> Result<Read, ReadFault>
    requires { of.0 < length table.now }
    ensures found { IfOk result (λ r. (r.used ≤ length bytes.now) × Spells table.now of.0 true
        most_octets r.value (take r.used bytes.now)) }
    ensures only { (v : tree.Value) (n : ℕ) → n ≤ length bytes.now →
        Spells table.now of.0 true most_octets v (take n bytes.now) → IsRead result v n }
    ensures exact { Gives (λ r. (r.value, r.used)) result
        (read_at table.now of.0 true most_octets bytes.now) }
{
    read_whole(alloc, table, of, bytes, MOST_VALUE_OCTETS, true)
}

#[tactic(auto, unfolding(ber_spelling::specs::Rules::read_at, ber_spelling::specs::Rules::value_at))]
#[inline(always)]
fn read_all(
    alloc: Global,
    table: &TypeTable,
    of: TypeId,
    bytes: &[u8],
    limit: u32,
    strict: bool,
) -> Result<Read, ReadFault>
    requires { of.0 < length table.now }
    ensures exact { Gives (λ r. (r.value, r.used)) result
        (read_at table.now of.0 strict limit bytes.now) }
{
    let scope = outermost(limit, strict);
    match first_identifier(limit, bytes) {
        Some((opened, spot)) => read_behind(alloc, table, of, &scope, &opened, spot),
        None => read_from(alloc, table, of, bytes, limit, strict),
    }
}

/// The scope of a whole value.
#[inline(always)]
fn outermost(limit: u32, strict: bool) -> Scope
    ensures { result ≡ outermost limit strict }
{
    Scope {
        levels: 32,
        limit,
        end: None,
        marked: false,
        strict,
    }
}

/// As `read_all`, whatever the octets begin with.
#[tactic(auto, unfolding(ber_spelling::specs::Rules::read_at, ber_spelling::specs::Rules::value_at))]
#[inline(never)]
fn read_from(
    alloc: Global,
    table: &TypeTable,
    of: TypeId,
    bytes: &[u8],
    limit: u32,
    strict: bool,
) -> Result<Read, ReadFault>
    requires { of.0 < length table.now }
    ensures exact { Gives (λ r. (r.value, r.used)) result
        (read_at table.now of.0 strict limit bytes.now) }
{
    let scope = outermost(limit, strict);
    let start = Spot {
        place: 0,
        rest: bytes,
    };
    let (opened, spot) = identifier_octets(&scope, start)?;
    read_behind(alloc, table, of, &scope, &opened, spot)
}

/// The SEQUENCE that a row is, or is under one implicit tag: its row, its parts and its tag.
#[inline(always)]
fn sequence_of(table: &TypeTable, of: TypeId) -> Option<(TypeId, &Parts, Tag)>
    requires { of.0 < length table.now }
    ensures row { IfSome result (λ x. x.0.0 ≤ length table.now) }
    ensures below { IfSome result (λ x. AllByRecursion (λ m. m < x.0.0) (rows_of_parts x.1.now)) }
    ensures is { IfSome result (λ x. reads table.now of.0 plain ≡ sequence_at (begins table.now)
        (reads table.now) x.1.now x.2) }
{
    match table.row(of) {
        TypeRow::Tagged {
            class,
            number,
            explicit,
            inner,
        } => {
            let tag = Tag {
                class: *class,
                number: *number,
            };
            match table.row(*inner) {
                TypeRow::Sequence(parts) if !*explicit => Some((*inner, parts, tag)),
                _ => None,
            }
        }
        TypeRow::Sequence(parts) => {
            let tag = Tag {
                class: Class::Universal,
                number: 16,
            };
            Some((of, parts, tag))
        }
        _ => None,
    }
}

/// What stands behind an identifier, as a value of a row that is a SEQUENCE.
#[inline(always)]
fn read_sequence<'a>(
    alloc: Global,
    table: &TypeTable,
    of: TypeId,
    row: TypeId,
    parts: &Parts,
    tag: Tag,
    scope: &Scope,
    opened: &Opened<'a>,
    spot: Spot<'a>,
) -> Result<(Val, Spot<'a>), ReadFault>
    requires row { row.0 ≤ length table.now }
    requires below { AllByRecursion (λ m. m < row.0) (rows_of_parts parts.now) }
    requires is { reads table.now of.0 plain ≡ sequence_at (begins table.now) (reads table.now)
        parts.now tag }
    requires whole { HasPlaces spot.place spot.rest.now }
    ensures gives { Gives (λ x. (x.0, spot_of x.1)) result
        (reads table.now of.0 plain scope.now (opened_of opened.now) (spot_of spot.entry)) }
    ensures stops { IfOk result (λ x. GoesOn spot.entry.place (length spot.entry.rest.now) x.1) }
{
    sequence(alloc, table, row, parts, tag, scope, opened, spot)
}

/// The value behind its identifier. Most values are a SEQUENCE.
#[inline(always)]
fn read_behind<'a>(
    alloc: Global,
    table: &TypeTable,
    of: TypeId,
    scope: &Scope,
    opened: &Opened<'a>,
    spot: Spot<'a>,
) -> Result<Read, ReadFault>
    requires row { of.0 < length table.now }
    requires behind { IsBehind opened.now spot }
    ensures { GivesRead result (reads table.now of.0 plain scope.now (opened_of opened.now)
        (spot_of spot.entry)) }
{
    if let Some((row, parts, tag)) = sequence_of(table, of) {
        let (value, after) = read_sequence(alloc, table, of, row, parts, tag, scope, opened, spot)?;
        let used = after.place;
        return Ok(Read { value, used });
    }
    let (value, after) = value(alloc, table, of, None, None, scope, opened, spot)?;
    let used = after.place;
    Ok(Read { value, used })
}

#[inline(always)]
fn read_whole(
    alloc: Global,
    table: &TypeTable,
    of: TypeId,
    bytes: &[u8],
    limit: u32,
    strict: bool,
) -> Result<Read, ReadFault>
    requires { of.0 < length table.now }
    ensures found { IfOk result (λ r. (r.used ≤ length bytes.now) × Spells table.now of.0 strict
        limit r.value (take r.used bytes.now)) }
    ensures only { (v : tree.Value) (n : ℕ) → n ≤ length bytes.now →
        Spells table.now of.0 strict limit v (take n bytes.now) → IsRead result v n }
    ensures exact { Gives (λ r. (r.value, r.used)) result
        (read_at table.now of.0 strict limit bytes.now) }
{
    let _rows = table.len();
    read_all(alloc, table, of, bytes, limit, strict)
}
