//! The fields of BER: identifiers, lengths, contents and their ends (X.690 8.1).

ghost use Rattle.std.specs.Prelude.{◌≢◌, IfErr, ◌≡◌, ◌∷◌, ◌+◌, ◌-◌, ◌≤◌, ◌<◌, ◌^◌, length, take, IfOk, Err};
ghost use Rattle.osi_base.specs.OctetPlaces.{HasPlaces};
ghost use Rattle.osi_base.specs.Limits.{past_places};
ghost use Rattle.asn1_types.specs.Whole.{number_256};
ghost use Rattle.ber_spelling.specs.Reading.{Gives, within, spot_of, opened_of, ahead_of, is_past, LiesIn, GoesOn, GoesOnWithoutMemory, Opens};
ghost use Rattle.ber_spelling.specs.Fields.{is_constructed, digits_at, high_at, identifier_at, announced_at, long_at, definite_at, extent_at, contents_at, begin_at, mark_at, look_at, is_end, lacking_from, cut_off, sure_reach};
ghost use Rattle.asn1_types.specs.Tags.{class_of, capped};

use crate::fault::ReadFault;
use crate::spot::{Ahead, Opened, Scope, Spot};
use asn1_types::{Class, number_256};
use osi_base::Kind;

/// The fault of kind `kind` in the field at `place`, counted in octets from 0.
#[inline(always)]
pub fn refusal(place: usize, kind: Kind) -> ReadFault
    ensures { result ≡ ReadFault.NotSpelled place kind }
{
    ReadFault::NotSpelled { place, kind }
}

#[inline(always)]
fn is_past(end: Option<usize>, until: u64) -> bool
    ensures { result ≡ is_past end until }
{
    match end {
        None => false,
        Some(end) => (end as u64) < until,
    }
}

#[inline(always)]
fn is_end(end: Option<usize>, place: usize) -> bool
    ensures { result ≡ is_end end place }
{
    match end {
        None => false,
        Some(end) => end <= place,
    }
}

/// Whether a field at this place that goes on until `until` stays within the limit and the
/// enclosing contents.
#[tactic(auto, unfolding(crate::specs::Reading::within))]
#[inline(always)]
fn check_within(scope: &Scope, place: usize, until: u64) -> Result<(), ReadFault>
    ensures gives { Gives (λ x. x) result (within scope.now place until) }
    ensures no_memory { IfErr result (λ e. e ≢ ReadFault.NoMemory) }
    ensures reach { IfOk result (λ _. until ≤ scope.now.limit) }
{
    if (scope.limit as u64) < until {
        return Err(ReadFault::TooLong { place });
    }
    if is_past(scope.end, until) {
        return Err(refusal(place, Kind::Length));
    }
    Ok(())
}

/// The class of an identifier that begins with this octet (X.690 8.1.2.2).
#[inline(always)]
pub fn class_of(first: u8) -> Class
    ensures { result ≡ class_of first }
{
    if first < 64 {
        Class::Universal
    } else if first < 128 {
        Class::Application
    } else if first < 192 {
        Class::Context
    } else {
        Class::Private
    }
}

#[inline(always)]
fn is_constructed(first: u8) -> bool
    ensures { result ≡ is_constructed first }
{
    first / 32 % 2 == 1
}

/// The number that digits of seven bits are, from the place behind `place` on.
#[tactic(auto, unfolding(crate::specs::Fields::digits_at))]
fn digits<'a>(scope: &Scope, place: usize, digits: &'a [u8]) -> Result<(u64, Spot<'a>), ReadFault>
    requires { place + length digits.now + 1 < past_places }
    ensures gives { Gives (λ x. (x.0, spot_of x.1)) result
        (digits_at scope.now place 0 (place + 1) digits.now) }
    ensures no_memory { IfErr result (λ e. e ≢ ReadFault.NoMemory) }
    ensures stops { IfOk result (λ x. GoesOn (place + 1) (length digits.now) x.1) }
    ensures small { IfOk result (λ x. x.0 ≤ 2 ^ 32) }
{
    let mut number: u64 = 0;
    for (index, digit) in digits.iter().enumerate() {
        check_within(scope, place, (place + 2 + index) as u64)?;
        let low = (*digit & 0x7f) as u64;
        number = (128 * number + low).min(0x1_0000_0000);
        if *digit < 128 {
            return Ok((
                number,
                Spot {
                    place: place + 2 + index,
                    rest: &digits[index + 1..],
                },
            ));
        }
    }
    Err(lacking(scope, place, place + 1 + digits.len()))
}

/// The identifier at this spot (X.690 8.1.2).
#[tactic(auto, unfolding(crate::specs::Fields::high_at))]
#[inline(never)]
fn high<'a>(
    scope: &Scope,
    start: Spot<'a>,
    first: u8,
    digits_of: &'a [u8],
) -> Result<(Opened<'a>, Spot<'a>), ReadFault>
    requires whole { start.place + length digits_of.now + 1 < past_places }
    requires first { start.rest.now ≡ first ∷ digits_of.now }
    ensures gives { Gives (λ x. (opened_of x.0, spot_of x.1)) result
        (high_at scope.now start.entry.place first digits_of.now) }
    ensures no_memory { IfErr result (λ e. e ≢ ReadFault.NoMemory) }
    ensures stops { IfOk result (λ x. Opens start.entry.place (length start.entry.rest.now) x.0
        x.1) }
{
    let (number, after) = digits(scope, start.place, digits_of)?;
    if number < 31 || digits_of.first() == Some(&0x80) {
        return Err(refusal(start.place, Kind::Tag));
    }
    let opened = Opened {
        start,
        class: class_of(first),
        constructed: is_constructed(first),
        number,
    };
    Ok((opened, after))
}

/// The identifier at this spot (X.690 8.1.2), and where reading goes on; or the first fault in it.
#[tactic(auto, unfolding(crate::specs::Fields::identifier_at))]
#[inline(always)]
pub fn identifier_octets<'a>(
    scope: &Scope,
    start: Spot<'a>,
) -> Result<(Opened<'a>, Spot<'a>), ReadFault>
    requires { HasPlaces start.place start.rest.now }
    ensures gives { Gives (λ x. (opened_of x.0, spot_of x.1)) result
        (identifier_at scope.now start.entry.place start.entry.rest.now) }
    ensures no_memory { IfErr result (λ e. e ≢ ReadFault.NoMemory) }
    ensures stops { IfOk result (λ x. Opens start.entry.place (length start.entry.rest.now) x.0
        x.1) }
{
    match start.rest {
        [] => Err(ReadFault::Short),
        [first, rest @ ..] => {
            if scope.levels == 0 {
                return Err(ReadFault::TooDeep { place: start.place });
            }
            check_within(scope, start.place, start.place as u64 + 1)?;
            if *first % 32 == 31 {
                return high(scope, start, *first, rest);
            }
            let opened = Opened {
                start,
                class: class_of(*first),
                constructed: is_constructed(*first),
                number: (*first % 32) as u64,
            };
            Ok((
                opened,
                Spot {
                    place: start.place + 1,
                    rest,
                },
            ))
        }
    }
}

/// Whether `count` octets from `from` on, of a field at this place, stay within the limit and the
/// enclosing contents.
#[tactic(auto, unfolding(crate::specs::Reading::within))]
#[inline(always)]
fn check_reach(scope: &Scope, place: usize, from: usize, count: u64) -> Result<(), ReadFault>
    requires { from < past_places }
    ensures gives { Gives (λ x. x) result (within scope.now place (from + count)) }
    ensures no_memory { IfErr result (λ e. e ≢ ReadFault.NoMemory) }
    ensures reach { IfOk result (λ _. from + count ≤ scope.now.limit) }
{
    if count > u32::MAX as u64 {
        return Err(ReadFault::TooLong { place });
    }
    check_within(scope, place, from as u64 + count)
}

/// A length whose field ends before `rest`.
#[tactic(auto, unfolding(crate::specs::Fields::announced_at))]
#[inline(always)]
fn announced<'a>(
    scope: &Scope,
    place: usize,
    count: u64,
    minimal: bool,
    spot: Spot<'a>,
) -> Result<(u64, Spot<'a>), ReadFault>
    requires { spot.place < past_places }
    ensures gives { Gives (λ x. (x.0, spot_of x.1)) result
        (announced_at scope.now place count minimal spot.entry.place spot.entry.rest.now) }
    ensures no_memory { IfErr result (λ e. e ≢ ReadFault.NoMemory) }
    ensures stops { IfOk result (λ x. (x.1.place ≡ spot.entry.place) ×
        (x.1.rest.now ≡ spot.entry.rest.now) × (spot.entry.place + x.0 ≤ scope.now.limit)) }
{
    check_reach(scope, place, spot.place, count)?;
    if scope.strict && !minimal {
        return Err(refusal(place, Kind::Form));
    }
    Ok((count, spot))
}

/// A length in the long form, behind its first octet, which says `size` octets (X.690 8.1.3.5).
#[tactic(auto, unfolding(crate::specs::Fields::long_at))]
#[inline(never)]
fn long<'a>(
    scope: &Scope,
    place: usize,
    size: u8,
    rest: &'a [u8],
) -> Result<(u64, Spot<'a>), ReadFault>
    requires { place + 1 + length rest.now < past_places }
    ensures gives { Gives (λ x. (x.0, spot_of x.1)) result (long_at scope.now place size rest.now) }
    ensures no_memory { IfErr result (λ e. e ≢ ReadFault.NoMemory) }
    ensures stops { IfOk result (λ x. GoesOn (place + 1) (length rest.now) x.1) }
    ensures reach { IfOk result (λ x. x.1.place + x.0 ≤ scope.now.limit) }
{
    if rest.len() < size as usize {
        let until = place + 1 + size as usize;
        let reach = sure_reach(scope.end, until, place + 1 + rest.len());
        return Err(cut_off(scope, place, reach));
    }
    check_reach(scope, place, place + 1, size as u64)?;
    if size > 8 {
        return Err(refusal(place, Kind::Length));
    }
    let (octets, after) = rest.split_at(size as usize);
    let count = number_256(octets);
    let minimal = count >= 128 && octets.first() != Some(&0);
    announced(
        scope,
        place,
        count,
        minimal,
        Spot {
            place: place + 1 + size as usize,
            rest: after,
        },
    )
}

/// What is wrong with the field at a place where no octet of it is left.
#[tactic(auto, unfolding(crate::specs::Reading::within))]
#[inline(never)]
fn lacking(scope: &Scope, place: usize, from: usize) -> ReadFault
    requires { from < past_places }
    ensures is { lacking_from {A = Unit {0}} scope.now place from ≡ Err result }
    ensures no_memory { result ≢ ReadFault.NoMemory }
{
    if is_end(scope.end, from) {
        if (scope.limit as u64) < from as u64 + 1 {
            return ReadFault::TooLong { place };
        }
        return refusal(place, Kind::Length);
    }
    ReadFault::Short
}

/// How far a field certainly goes that goes on until `until`, and of which octets lack: to its end,
/// where the contents end before it, else to the end of the octets that are there.
fn sure_reach(end: Option<usize>, until: usize, there: usize) -> usize
    ensures { result ≡ sure_reach end until there }
{
    if is_past(end, until as u64) {
        until
    } else {
        there
    }
}

/// What is wrong with the field at a place that goes on until here at least and is cut off.
#[tactic(auto, unfolding(crate::specs::Reading::within))]
#[inline(never)]
fn cut_off(scope: &Scope, place: usize, until: usize) -> ReadFault
    ensures is { cut_off {A = Unit {0}} scope.now place until ≡ Err result }
    ensures no_memory { result ≢ ReadFault.NoMemory }
{
    if (scope.limit as usize) < until {
        return ReadFault::TooLong { place };
    }
    if is_past(scope.end, until as u64) {
        return refusal(place, Kind::Length);
    }
    ReadFault::Short
}

/// A definite length (X.690 8.1.3.3).
#[tactic(auto, unfolding(crate::specs::Fields::definite_at))]
#[inline(always)]
fn definite<'a>(scope: &Scope, spot: Spot<'a>) -> Result<(u64, Spot<'a>), ReadFault>
    requires { HasPlaces spot.place spot.rest.now }
    ensures gives { Gives (λ x. (x.0, spot_of x.1)) result
        (definite_at scope.now spot.entry.place spot.entry.rest.now) }
    ensures stops { GoesOnWithoutMemory spot.entry.place (length spot.entry.rest.now) result }
    ensures reach { IfOk result (λ x. x.1.place + x.0 ≤ scope.now.limit) }
{
    match spot.rest {
        [] => Err(lacking(scope, spot.place, spot.place)),
        [first, rest @ ..] => {
            check_within(scope, spot.place, spot.place as u64 + 1)?;
            let behind = Spot {
                place: spot.place + 1,
                rest,
            };
            match *first {
                0..=127 => announced(scope, spot.place, *first as u64, true, behind),
                128 | 255 => Err(refusal(spot.place, Kind::Length)),
                _ => long(scope, spot.place, *first - 128, rest),
            }
        }
    }
}

/// The octets of a primitive value, behind their length.
#[tactic(auto, unfolding(crate::specs::Fields::contents_at))]
#[inline(always)]
pub(crate) fn contents<'a>(
    scope: &Scope,
    spot: Spot<'a>,
) -> Result<(usize, &'a [u8], Spot<'a>), ReadFault>
    requires { HasPlaces spot.place spot.rest.now }
    ensures gives { Gives (λ x. (x.0, x.1.now, spot_of x.2)) result
        (contents_at scope.now spot.entry.place spot.entry.rest.now) }
    ensures no_memory { IfErr result (λ e. e ≢ ReadFault.NoMemory) }
    ensures stops { IfOk result (λ x. GoesOn spot.entry.place (length spot.entry.rest.now) x.2) }
{
    let (count, spot) = definite(scope, spot)?;
    if (spot.rest.len() as u64) < count {
        return Err(ReadFault::Short);
    }
    let (octets, rest) = spot.rest.split_at(count as usize);
    Ok((
        spot.place,
        octets,
        Spot {
            place: spot.place + count as usize,
            rest,
        },
    ))
}

/// The scope that the length of a constructed value gives its contents (X.690 8.1.3), and where
/// they begin; or the first fault in it.
#[tactic(auto, unfolding(crate::specs::Fields::extent_at))]
#[inline(always)]
pub fn extent<'a>(scope: &Scope, spot: Spot<'a>) -> Result<(Scope, Spot<'a>), ReadFault>
    requires { HasPlaces spot.place spot.rest.now }
    ensures gives { Gives (λ x. (x.0, spot_of x.1)) result
        (extent_at scope.now spot.entry.place spot.entry.rest.now) }
    ensures stops { GoesOnWithoutMemory spot.entry.place (length spot.entry.rest.now) result }
{
    match spot.rest {
        [] => Err(lacking(scope, spot.place, spot.place)),
        [first, rest @ ..] => {
            if *first != 128 {
                let (count, spot) = definite(scope, spot)?;
                let end = Some(spot.place + count as usize);
                return Ok((inside(scope, end, false), spot));
            }
            check_within(scope, spot.place, spot.place as u64 + 1)?;
            if scope.strict {
                return Err(refusal(spot.place, Kind::Form));
            }
            Ok((
                inside(scope, scope.end, true),
                Spot {
                    place: spot.place + 1,
                    rest,
                },
            ))
        }
    }
}

/// The scope of contents.
#[inline(always)]
fn inside(scope: &Scope, end: Option<usize>, marked: bool) -> Scope
    ensures { result ≡ record {
      levels = scope.now.levels - 1;
      limit = scope.now.limit;
      end = end;
      marked = marked;
      strict = scope.now.strict;
    } }
{
    Scope {
        levels: scope.levels.saturating_sub(1),
        limit: scope.limit,
        end,
        marked,
        strict: scope.strict,
    }
}

/// What begins here.
#[tactic(auto, unfolding(crate::specs::Fields::look_at))]
#[inline(always)]
fn begin<'a>(scope: &Scope, spot: Spot<'a>) -> Result<Ahead<'a>, ReadFault>
    requires { HasPlaces spot.place spot.rest.now }
    ensures gives { Gives (λ x. ahead_of x) result
        (begin_at scope.now spot.entry.place spot.entry.rest.now) }
    ensures no_memory { IfErr result (λ e. e ≢ ReadFault.NoMemory) }
    ensures stops { IfOk result (LiesIn spot.entry.place (length spot.entry.rest.now)) }
{
    let (opened, after) = identifier_octets(scope, spot)?;
    Ok(Ahead::Begun(opened, after))
}

/// Whether contents end at end-of-contents octets, or what begins here.
#[inline(never)]
fn mark<'a>(scope: &Scope, spot: Spot<'a>) -> Result<Ahead<'a>, ReadFault>
    requires { HasPlaces spot.place spot.rest.now }
    ensures gives { Gives (λ x. ahead_of x) result
        (mark_at scope.now spot.entry.place spot.entry.rest.now) }
    ensures no_memory { IfErr result (λ e. e ≢ ReadFault.NoMemory) }
    ensures stops { IfOk result (LiesIn spot.entry.place (length spot.entry.rest.now)) }
{
    match spot.rest {
        [] => Err(ReadFault::Short),
        [0, after @ ..] => {
            if is_past(scope.end, spot.place as u64 + 2) {
                check_within(scope, spot.place, spot.place as u64 + 2)?;
                return Err(ReadFault::Short);
            }
            check_within(scope, spot.place, spot.place as u64 + 1)?;
            match after {
                [] => Err(ReadFault::Short),
                [0, rest @ ..] => {
                    check_within(scope, spot.place, spot.place as u64 + 2)?;
                    Ok(Ahead::Ended {
                        place: spot.place,
                        after: Spot {
                            place: spot.place + 2,
                            rest,
                        },
                    })
                }
                _ => begin(scope, spot),
            }
        }
        _ => begin(scope, spot),
    }
}

/// Whether contents end here (X.690 8.1.5), or what begins here; or the first fault in it.
#[tactic(auto, unfolding(crate::specs::Fields::look_at))]
#[inline(always)]
pub fn look_ahead<'a>(scope: &Scope, spot: Spot<'a>) -> Result<Ahead<'a>, ReadFault>
    requires { HasPlaces spot.place spot.rest.now }
    ensures gives { Gives (λ x. ahead_of x) result
        (look_at scope.now spot.entry.place spot.entry.rest.now) }
    ensures no_memory { IfErr result (λ e. e ≢ ReadFault.NoMemory) }
    ensures stops { IfOk result (LiesIn spot.entry.place (length spot.entry.rest.now)) }
{
    if scope.marked {
        if is_end(scope.end, spot.place) {
            check_within(scope, spot.place, spot.place as u64 + 1)?;
            return Err(ReadFault::Short);
        }
        return mark(scope, spot);
    }
    if is_end(scope.end, spot.place) {
        return Ok(Ahead::Ended {
            place: spot.place,
            after: spot,
        });
    }
    begin(scope, spot)
}
