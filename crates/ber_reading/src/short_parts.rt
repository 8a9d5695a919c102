//! Parts whose identifier and length have one octet each, read without the cycle of rows: INTEGERs,
//! CHOICEs of one, and parts that are not there. What isn't read so is left to the cycle.

ghost use Rattle.std.specs.Prelude.{◌≡◌, ◌+◌, ◌-◌, ◌≤◌, ◌<◌, true, false, length, drop, Bool, None, option_map, IfSome, Ok};
ghost use Rattle.std.specs.List.{AllByRecursion};
ghost use Rattle.std.specs.Vec.{vec_len, vec_capacity};
ghost use Rattle.osi_base.specs.OctetPlaces.{HasPlaces};
ghost use Rattle.asn1_types.specs.Rows.{begins, rows_of_parts};
ghost use Rattle.asn1_types.specs.Table.{IsRowOf};
ghost use Rattle.asn1_types.specs.Value as tree;
ghost use Rattle.ber_spelling.specs.Reading.{begun, spot_of, opened_of, GoesOn, Opens};
ghost use Rattle.ber_spelling.specs.Fields.{identifier_at, look_at};
ghost use Rattle.ber_spelling.specs.Rules.{outermost, always, integer_rule, primitive_at, choice_at, reads};
ghost use Rattle.ber_reading.specs.ShortParts.{IsReach, integer_tag, integer_opened, behind};
ghost use Rattle.ber_reading.specs.Parts.{part_from, parts_from, parts_behind};

use asn1_types::{
    Class, MaybeVals, Node, Part, TypeId, TypeRow, TypeTable, Val, begins, is_no_tag,
    may_be_absent, same_class,
};
use ber_spelling::{Opened, Scope, Spot, class_of, integer_of, is_other_number};
use std::alloc::Global;

/// Up to where a field goes on at most that is read at once. It is 0 where the contents end at
/// end-of-contents octets or no level is left.
#[inline(always)]
pub(crate) fn reach(scope: &Scope, spot: Spot) -> usize
    requires { HasPlaces spot.place spot.rest.now }
    ensures { IsReach scope.now (spot.entry.place + length spot.entry.rest.now) result }
{
    if scope.marked || scope.levels == 0 {
        return 0;
    }
    let octets = spot.place + spot.rest.len();
    let limit = scope.limit as usize;
    let least = if octets < limit { octets } else { limit };
    match scope.end {
        Some(end) if end < least => end,
        _ => least,
    }
}

/// The identifier of a whole value, if it has one octet.
#[inline(always)]
#[tactic(auto, unfolding(ber_spelling::specs::Fields::identifier_at, ber_spelling::specs::Reading::within))]
pub(crate) fn first_identifier<'a>(limit: u32, bytes: &'a [u8]) -> Option<(Opened<'a>, Spot<'a>)>
    ensures gives { (strict : Bool) →
        IfSome result (λ x. identifier_at (outermost limit strict) 0 bytes.now
        ≡ Ok (opened_of x.0, spot_of x.1)) }
    ensures stops { IfSome result (λ x. Opens 0 (length bytes.now) x.0 x.1) }
{
    let start = Spot {
        place: 0,
        rest: bytes,
    };
    match bytes {
        [first, rest @ ..] if limit > 0 && *first % 32 != 31 => {
            let opened = Opened {
                start,
                class: class_of(*first),
                constructed: *first / 32 % 2 == 1,
                number: (*first % 32) as u64,
            };
            Some((opened, Spot { place: 1, rest }))
        }
        _ => None,
    }
}

/// The number of these contents, if it is one from `low` to `high`.
#[inline(always)]
fn integer_within(low: i64, high: i64, octets: &[u8]) -> Option<i64>
    ensures { integer_rule low high octets.now ≡ option_map tree.integer result }
{
    match integer_of(octets) {
        Some(number) if low <= number && number <= high => Some(number),
        _ => None,
    }
}

/// The INTEGER from `low` to `high` that stands here, and where reading goes on.
#[inline(always)]
pub(crate) fn integer_ahead<'a>(
    low: i64,
    high: i64,
    scope: &Scope,
    reach: usize,
    spot: Spot<'a>,
) -> Option<(i64, Spot<'a>)>
    requires whole { HasPlaces spot.place spot.rest.now }
    requires reach { IsReach scope.now (spot.place + length spot.rest.now) reach }
    ensures looks { IfSome result (λ x. look_at scope.now spot.entry.place spot.entry.rest.now
        ≡ Ok (begun (integer_opened (spot_of spot.entry)) (behind (spot_of spot.entry)))) }
    ensures gives { IfSome result (λ x. primitive_at (integer_rule low high) always integer_tag
        scope.now (integer_opened (spot_of spot.entry)) (behind (spot_of spot.entry))
        ≡ Ok (tree.integer x.0, spot_of x.1)) }
    ensures stops { IfSome result (λ x. GoesOn spot.entry.place (length spot.entry.rest.now) x.1) }
{
    let [first, count, ..] = spot.rest else {
        return None;
    };
    if *first != 2 || *count >= 128 || spot.place + 2 + *count as usize > reach {
        return None;
    }
    let (octets, rest) = spot.rest[2..].split_at(*count as usize);
    let number = integer_within(low, high, octets)?;
    let place = spot.place + 2 + *count as usize;
    Some((number, Spot { place, rest }))
}

/// The INTEGER that stands here, if one is the first of these alternatives.
#[inline(always)]
fn first_ahead<'a>(
    table: &TypeTable,
    alternatives: &[Part],
    scope: &Scope,
    reach: usize,
    spot: Spot<'a>,
) -> Option<(i64, Spot<'a>)>
    requires below { AllByRecursion (λ m. m < length table.now) (rows_of_parts alternatives.now) }
    requires whole { HasPlaces spot.place spot.rest.now }
    requires reach { IsReach scope.now (spot.place + length spot.rest.now) reach }
    ensures looks { IfSome result (λ x. look_at scope.now spot.entry.place spot.entry.rest.now
        ≡ Ok (begun (integer_opened (spot_of spot.entry)) (behind (spot_of spot.entry)))) }
    ensures gives { IfSome result (λ x. choice_at (begins table.now) (reads table.now) 0
        alternatives.now scope.now (integer_opened (spot_of spot.entry))
        (behind (spot_of spot.entry)) ≡ Ok (tree.chosen 0 (tree.integer x.0), spot_of x.1)) }
    ensures stops { IfSome result (λ x. GoesOn spot.entry.place (length spot.entry.rest.now) x.1) }
{
    let [first, ..] = alternatives else {
        return None;
    };
    match table.row(first.inner) {
        TypeRow::Integer { low, high } => integer_ahead(*low, *high, scope, reach, spot),
        _ => None,
    }
}

/// Whether a value of this row may begin with this tag.
#[inline(always)]
fn row_begins(table: &TypeTable, of: TypeId, row: &TypeRow, class: Class, number: u64) -> bool
    requires row { IsRowOf table.now of.0 row.now }
    ensures { result ≡ begins table.now of.0 class number }
{
    match row {
        TypeRow::Tagged {
            class: own,
            number: own_number,
            ..
        } => {
            !is_no_tag(class, number) && same_class(class, *own) && number == *own_number as u64
        }
        _ => begins(table, of, class, number),
    }
}

/// Whether what stands here is another field than this part, which may be absent.
#[inline(always)]
#[tactic(auto, unfolding(crate::specs::Parts::part_from))]
fn is_absent(
    table: &TypeTable,
    part: &Part,
    row: &TypeRow,
    scope: &Scope,
    reach: usize,
    spot: Spot,
) -> bool
    requires row { IsRowOf table.now part.now.inner.0 row.now }
    requires whole { HasPlaces spot.place spot.rest.now }
    requires reach { IsReach scope.now (spot.place + length spot.rest.now) reach }
    ensures { result ≡ true → part_from (begins table.now) (reads table.now part.now.inner.0)
        part.now scope.now (spot_of spot.entry) ≡ Ok (None, spot_of spot.entry) }
{
    match spot.rest {
        [first, ..] if may_be_absent(part) && *first % 32 != 31 && spot.place < reach => {
            !row_begins(
                table,
                part.inner,
                row,
                class_of(*first),
                (*first % 32) as u64,
            )
        }
        _ => false,
    }
}

/// Puts the first of these parts of a SEQUENCE behind those found before, as many as are read at
/// once, and answers where reading goes on. It stops at the first that isn't, or whose memory is
/// refused.
#[inline(never)]
pub(crate) fn parts_at_once<'a>(
    alloc: Global,
    table: &TypeTable,
    parts: &[Part],
    scope: &Scope,
    spot: Spot<'a>,
    found: &mut MaybeVals,
) -> Spot<'a>
    requires below { AllByRecursion (λ m. m < length table.now) (rows_of_parts parts.now) }
    requires whole { HasPlaces spot.place spot.rest.now }
    requires room { vec_len found.old + length parts.now ≤ vec_capacity found.old }
    ensures some { vec_len found.old ≤ vec_len found.new }
    ensures few { vec_len found.new ≤ vec_len found.old + length parts.now }
    ensures room { vec_capacity found.new ≡ vec_capacity found.old }
    ensures stops { GoesOn spot.entry.place (length spot.entry.rest.now) result }
    ensures gives { parts_behind found.new.items (parts_from (begins table.now) (reads table.now)
        scope.now (spot_of result) (drop (vec_len found.new - vec_len found.old) parts.now))
        ≡ parts_behind found.old.items (parts_from (begins table.now) (reads table.now) scope.now
        (spot_of spot.entry) parts.now) }
{
    let reach = reach(scope, spot);
    let mut spot = spot;
    for part in parts {
        let row = table.row(part.inner);
        match row {
            TypeRow::Integer { low, high } => {
                let Some((number, next)) = integer_ahead(*low, *high, scope, reach, spot) else {
                    return spot;
                };
                if !is_other_number(part.default, number) {
                    return spot;
                }
                let node = Node::Int(number);
                found.push_reserved(Some(Val { node }));
                spot = next;
            }
            TypeRow::Choice(alternatives) => {
                let first = first_ahead(table, alternatives.as_slice(), scope, reach, spot);
                let Some((number, next)) = first else {
                    return spot;
                };
                let node = Node::Int(number);
                let Ok(value) = Box::new(alloc, Val { node }) else {
                    return spot;
                };
                let node = Node::Chosen { which: 0, value };
                found.push_reserved(Some(Val { node }));
                spot = next;
            }
            _ => {
                if !is_absent(table, part, row, scope, reach, spot) {
                    return spot;
                }
                found.push_reserved(None);
            }
        }
    }
    spot
}
