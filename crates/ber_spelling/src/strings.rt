//! Strings, primitive or in segments (X.690 8.6, 8.7, 8.23).

ghost use Rattle.std.specs.Prelude.{◌≡◌, ◌<◌, length, drop, slice_index, Some, IfOk};
ghost use Rattle.osi_base.specs.OctetPlaces.{HasPlaces};
ghost use Rattle.ber_spelling.specs.declared.spot.StringKind.TheVariants.{OfOctets, OfBits};
ghost use Rattle.ber_spelling.specs.Reading.{Gives, spot_of, opened_of, GoesOn};
ghost use Rattle.ber_spelling.specs.Rules.{always, primitive_at, constructed_at, segment_tag, is_segment, nothing, gathered, segment_rule, segment_at, all_items_at, segmented_at, string_rule, string_at, cleared, kind_of, whole_by, canonical_by, whole_octets, whole_text, whole_bits, has_zero_bits};

use crate::fault::ReadFault;
use crate::fields::{contents, extent, look_ahead, refusal};
use crate::spot::{Ahead, Gathered, Opened, Scope, Spot, StringKind, StringRule};
use crate::tag::expect_tag;
use asn1_types::{Class, Node, Tag, TextKind, Val, are_bits, is_text};
use osi_base::{Kind, NoMemory, Octets, power_of_2};
use std::alloc::Global;

/// Segments have the tag of OCTET STRING or BIT STRING.
fn segment_tag(kind: StringKind) -> Tag
    ensures { result ≡ segment_tag kind }
{
    let number = match kind {
        StringKind::OfOctets => 4,
        StringKind::OfBits => 3,
    };
    Tag {
        class: Class::Universal,
        number,
    }
}

/// Whether a segment may have these contents.
fn is_segment(kind: StringKind, octets: &[u8]) -> bool
    ensures { result ≡ is_segment kind octets.now }
{
    match kind {
        StringKind::OfOctets => true,
        StringKind::OfBits => match octets {
            [] => false,
            [unused] => *unused == 0,
            [unused, ..] => *unused < 8,
        },
    }
}

/// What is gathered with the contents of one more segment.
fn gather(kind: StringKind, octets: &[u8], before: Gathered) -> Result<Gathered, NoMemory>
    ensures { IfOk result (λ after. after ≡ gathered kind before octets.now) }
{
    let mut gathered = before;
    match kind {
        StringKind::OfOctets => gathered.octets.extend(octets)?,
        StringKind::OfBits => {
            gathered.spoiled = gathered.spoiled || gathered.unused != 0;
            gathered.unused = first_octet(octets);
            gathered.octets.extend(behind_first(octets))?;
        }
    }
    Ok(gathered)
}

fn first_octet(octets: &[u8]) -> u8
    ensures { result ≡ slice_index octets.now 0 }
{
    match octets {
        [] => 0,
        [first, ..] => *first,
    }
}

fn behind_first(octets: &[u8]) -> &[u8]
    ensures { result.now ≡ drop 1 octets.now }
{
    match octets {
        [] => octets,
        [_, rest @ ..] => rest,
    }
}

/// The segments up to the end of the contents, under at most `depth` levels.
#[cycle(gathering)]
fn segments<'a>(
    kind: StringKind,
    depth: u32,
    scope: &Scope,
    spot: Spot<'a>,
    before: Gathered,
) -> Result<(Gathered, Spot<'a>), ReadFault>
    requires { HasPlaces spot.place spot.rest.now }
    ensures gives { Gives (λ x. (x.0, spot_of x.1)) result
        (all_items_at (segment_at kind depth) (λ g. Some g) before scope.now (spot_of spot.entry)) }
    ensures stops { IfOk result (λ x. GoesOn spot.entry.place (length spot.entry.rest.now) x.1) }
{
    let mut spot = spot;
    let mut gathered = before;
    for _turn in 0..spot.rest.len() + 1 {
        match look_ahead(scope, spot)? {
            Ahead::Ended { after, .. } => return Ok((gathered, after)),
            Ahead::Begun(opened, after) => {
                let (more, next) = segment(kind, depth, scope, &opened, after, gathered)?;
                gathered = more;
                spot = next;
            }
        }
    }
    Err(ReadFault::Short)
}

/// One segment.
#[cycle(gathering)]
fn segment<'a>(
    kind: StringKind,
    depth: u32,
    scope: &Scope,
    opened: &Opened<'a>,
    spot: Spot<'a>,
    before: Gathered,
) -> Result<(Gathered, Spot<'a>), ReadFault>
    requires { HasPlaces spot.place spot.rest.now }
    ensures gives { Gives (λ x. (x.0, spot_of x.1)) result
        (segment_at kind depth before scope.now (opened_of opened.now) (spot_of spot.entry)) }
    ensures stops { IfOk result (λ x. GoesOn spot.entry.place (length spot.entry.rest.now) x.1) }
{
    if depth == 0 {
        return Err(refusal(opened.start.place, Kind::Tag));
    }
    if opened.constructed {
        nested(kind, depth - 1, scope, opened, spot, before)
    } else {
        single(kind, scope, opened, spot, before)
    }
}

/// A segment of segments.
#[cycle(gathering)]
fn nested<'a>(
    kind: StringKind,
    depth: u32,
    scope: &Scope,
    opened: &Opened<'a>,
    spot: Spot<'a>,
    before: Gathered,
) -> Result<(Gathered, Spot<'a>), ReadFault>
    requires { HasPlaces spot.place spot.rest.now }
    ensures gives { Gives (λ x. (x.0, spot_of x.1)) result
        (constructed_at (all_items_at (segment_at kind depth) (λ g. Some g) before)
        (segment_tag kind) scope.now (opened_of opened.now) (spot_of spot.entry)) }
    ensures stops { IfOk result (λ x. GoesOn spot.entry.place (length spot.entry.rest.now) x.1) }
{
    expect_tag(segment_tag(kind), true, opened)?;
    let (inside, spot) = extent(scope, spot)?;
    segments(kind, depth, &inside, spot, before)
}

/// A primitive segment.
#[tactic(auto, unfolding(crate::specs::Rules::primitive_at))]
fn single<'a>(
    kind: StringKind,
    scope: &Scope,
    opened: &Opened<'a>,
    spot: Spot<'a>,
    before: Gathered,
) -> Result<(Gathered, Spot<'a>), ReadFault>
    requires { HasPlaces spot.place spot.rest.now }
    ensures gives { Gives (λ x. (x.0, spot_of x.1)) result
        (primitive_at (segment_rule kind before) always (segment_tag kind) scope.now
        (opened_of opened.now) (spot_of spot.entry)) }
    ensures stops { IfOk result (λ x. GoesOn spot.entry.place (length spot.entry.rest.now) x.1) }
{
    expect_tag(segment_tag(kind), false, opened)?;
    let (place, octets, after) = contents(scope, spot)?;
    if !is_segment(kind, octets) {
        return Err(refusal(place, Kind::Content));
    }
    Ok((gather(kind, octets, before)?, after))
}

/// Nothing gathered yet.
fn nothing(alloc: Global) -> Gathered
    ensures { result ≡ nothing }
{
    Gathered {
        octets: Octets::new(alloc),
        unused: 0,
        spoiled: false,
    }
}

/// Unused bits count as zeros.
fn cleared(octets: Octets, unused: u8) -> Octets
    requires { unused < 8 }
    ensures { result ≡ cleared unused octets }
{
    let mut items = octets.into_vec();
    let count = items.len();
    if count > 0 {
        let last = items[count - 1];
        items[count - 1] = last - last % power_of_2(unused);
    }
    Octets::from_vec(items)
}

/// The value that the segments of a string are together, if the rule takes it.
fn whole(rule: StringRule, gathered: Gathered) -> Option<Val>
    ensures { result ≡ whole_by rule gathered }
{
    let Gathered {
        octets,
        unused,
        spoiled,
    } = gathered;
    match rule {
        StringRule::Octets { most } => {
            if octets.len() > most as usize {
                return None;
            }
            Some(Val {
                node: Node::Octets(octets),
            })
        }
        StringRule::Text(kind) => {
            if !is_text(kind, octets.as_slice()) {
                return None;
            }
            Some(Val {
                node: Node::Text(octets),
            })
        }
        StringRule::Bits => {
            if spoiled || unused >= 8 {
                return None;
            }
            Some(Val {
                node: Node::Bits {
                    octets: cleared(octets, unused),
                    unused,
                },
            })
        }
    }
}

fn kind_of(rule: StringRule) -> StringKind
    ensures { result ≡ kind_of rule }
{
    match rule {
        StringRule::Octets { .. } | StringRule::Text(_) => StringKind::OfOctets,
        StringRule::Bits => StringKind::OfBits,
    }
}

/// Whether DER takes these contents of a primitive string.
fn is_canonical(rule: StringRule, octets: &[u8]) -> bool
    ensures { result ≡ canonical_by rule octets.now }
{
    match rule {
        StringRule::Octets { .. } | StringRule::Text(_) => true,
        StringRule::Bits => are_bits(behind_first(octets), first_octet(octets)),
    }
}

/// A string in segments.
#[tactic(auto, unfolding(crate::specs::Rules::segmented_at))]
fn segmented<'a>(
    alloc: Global,
    rule: StringRule,
    tag: Tag,
    scope: &Scope,
    opened: &Opened<'a>,
    spot: Spot<'a>,
) -> Result<(Val, Spot<'a>), ReadFault>
    requires { HasPlaces spot.place spot.rest.now }
    ensures gives { Gives (λ x. (x.0, spot_of x.1)) result
        (segmented_at (kind_of rule) (whole_by rule) tag scope.now (opened_of opened.now)
        (spot_of spot.entry)) }
    ensures stops { IfOk result (λ x. GoesOn spot.entry.place (length spot.entry.rest.now) x.1) }
{
    expect_tag(tag, true, opened)?;
    if scope.strict {
        return Err(refusal(opened.start.place, Kind::Form));
    }
    let (inside, spot) = extent(scope, spot)?;
    let (gathered, after) = segments(kind_of(rule), 32, &inside, spot, nothing(alloc))?;
    match whole(rule, gathered) {
        Some(value) => Ok((value, after)),
        None => Err(refusal(opened.start.place, Kind::Content)),
    }
}

/// A primitive string.
#[tactic(auto, unfolding(crate::specs::Rules::primitive_at))]
fn primitive<'a>(
    alloc: Global,
    rule: StringRule,
    tag: Tag,
    scope: &Scope,
    opened: &Opened<'a>,
    spot: Spot<'a>,
) -> Result<(Val, Spot<'a>), ReadFault>
    requires { HasPlaces spot.place spot.rest.now }
    ensures gives { Gives (λ x. (x.0, spot_of x.1)) result
        (primitive_at (string_rule (kind_of rule) (whole_by rule)) (canonical_by rule) tag scope.now
        (opened_of opened.now) (spot_of spot.entry)) }
    ensures stops { IfOk result (λ x. GoesOn spot.entry.place (length spot.entry.rest.now) x.1) }
{
    expect_tag(tag, false, opened)?;
    let (place, octets, after) = contents(scope, spot)?;
    match ruled(alloc, rule, octets)? {
        Some(value) => {
            if scope.strict && !is_canonical(rule, octets) {
                return Err(refusal(place, Kind::Form));
            }
            Ok((value, after))
        }
        None => Err(refusal(place, Kind::Content)),
    }
}

/// The value that these contents of a primitive string are, if the rule takes them.
fn ruled(alloc: Global, rule: StringRule, octets: &[u8]) -> Result<Option<Val>, NoMemory>
    ensures { IfOk result (λ value. value ≡ string_rule (kind_of rule) (whole_by rule) octets.now) }
{
    let kind = kind_of(rule);
    if !is_segment(kind, octets) {
        return Ok(None);
    }
    Ok(whole(rule, gather(kind, octets, nothing(alloc))?))
}

/// A string, primitive or in segments.
#[tactic(auto, unfolding(crate::specs::Rules::string_at))]
fn string<'a>(
    alloc: Global,
    rule: StringRule,
    tag: Tag,
    scope: &Scope,
    opened: &Opened<'a>,
    spot: Spot<'a>,
) -> Result<(Val, Spot<'a>), ReadFault>
    requires { HasPlaces spot.place spot.rest.now }
    ensures gives { Gives (λ x. (x.0, spot_of x.1)) result
        (string_at (kind_of rule) (whole_by rule) (canonical_by rule) tag scope.now
        (opened_of opened.now) (spot_of spot.entry)) }
    ensures stops { IfOk result (λ x. GoesOn spot.entry.place (length spot.entry.rest.now) x.1) }
{
    if opened.constructed {
        segmented(alloc, rule, tag, scope, opened, spot)
    } else {
        primitive(alloc, rule, tag, scope, opened, spot)
    }
}

/// An OCTET STRING of at most `most` octets behind its identifier (X.690 8.7), and where
/// reading goes on; or the first fault in it.
#[inline(never)]
pub fn octet_string<'a>(
    alloc: Global,
    most: u32,
    tag: Tag,
    scope: &Scope,
    opened: &Opened<'a>,
    spot: Spot<'a>,
) -> Result<(Val, Spot<'a>), ReadFault>
    requires { HasPlaces spot.place spot.rest.now }
    ensures gives { Gives (λ x. (x.0, spot_of x.1)) result
        (string_at OfOctets (whole_octets most) always tag scope.now (opened_of opened.now)
        (spot_of spot.entry)) }
    ensures stops { IfOk result (λ x. GoesOn spot.entry.place (length spot.entry.rest.now) x.1) }
{
    string(alloc, StringRule::Octets { most }, tag, scope, opened, spot)
}

/// A BIT STRING behind its identifier (X.690 8.6), and where reading goes on; or the first fault in
/// it.
#[inline(never)]
pub fn bit_string<'a>(
    alloc: Global,
    tag: Tag,
    scope: &Scope,
    opened: &Opened<'a>,
    spot: Spot<'a>,
) -> Result<(Val, Spot<'a>), ReadFault>
    requires { HasPlaces spot.place spot.rest.now }
    ensures gives { Gives (λ x. (x.0, spot_of x.1)) result
        (string_at OfBits whole_bits has_zero_bits tag scope.now (opened_of opened.now)
        (spot_of spot.entry)) }
    ensures stops { IfOk result (λ x. GoesOn spot.entry.place (length spot.entry.rest.now) x.1) }
{
    string(alloc, StringRule::Bits, tag, scope, opened, spot)
}

/// A text of this kind behind its identifier (X.690 8.23), and where
/// reading goes on; or the first fault in it.
#[inline(never)]
pub fn text<'a>(
    alloc: Global,
    kind: TextKind,
    tag: Tag,
    scope: &Scope,
    opened: &Opened<'a>,
    spot: Spot<'a>,
) -> Result<(Val, Spot<'a>), ReadFault>
    requires { HasPlaces spot.place spot.rest.now }
    ensures gives { Gives (λ x. (x.0, spot_of x.1)) result
        (string_at OfOctets (whole_text kind) always tag scope.now (opened_of opened.now)
        (spot_of spot.entry)) }
    ensures stops { IfOk result (λ x. GoesOn spot.entry.place (length spot.entry.rest.now) x.1) }
{
    string(alloc, StringRule::Text(kind), tag, scope, opened, spot)
}
