//! The parts of a SEQUENCE or SET that were found, in slots in the order of the notation.

ghost use Rattle.std.specs.Prelude.{◌≡◌, false, true, length, Some, None, IfOk};
ghost use Rattle.asn1_types.specs.Defaults.{may_be_absent, kept};
ghost use Rattle.ber_spelling.specs.Reading.{Gives, spot_of, GoesOn};
ghost use Rattle.ber_spelling.specs.Rules.{is_free, stands, is_filled, kept_of, settled};
ghost use Rattle.ber_reading.specs.Parts.{absent_at};

use asn1_types::{MaybeVals, Part, Val, has_default_value, may_be_absent};
use ber_spelling::{ReadFault, Spot, refusal};
use osi_base::Kind;

/// The value of a part, unless it is the default's, for which the absent part stands.
#[inline(always)]
pub(crate) fn kept(part: &Part, value: Val) -> Option<Val>
    ensures { result ≡ kept part.now value }
{
    if has_default_value(part, &value) {
        None
    } else {
        Some(value)
    }
}

/// A part that is not there, which leaves the spot as it is.
#[inline(always)]
pub(crate) fn absent<'a>(
    part: &Part,
    place: usize,
    spot: Spot<'a>,
) -> Result<(Option<Val>, Spot<'a>), ReadFault>
    ensures gives { Gives (λ x. (x.0, spot_of x.1)) result
        (absent_at (may_be_absent part.now) place (spot_of spot.entry)) }
    ensures stops { IfOk result (λ x. GoesOn spot.entry.place (length spot.entry.rest.now) x.1) }
{
    if may_be_absent(part) {
        Ok((None, spot))
    } else {
        Err(refusal(place, Kind::Missing))
    }
}

pub(crate) fn is_free(slot: &Option<Val>) -> bool
    ensures { result ≡ is_free (Some slot.now) }
{
    match slot {
        Some(_) => false,
        None => true,
    }
}

pub(crate) fn stands(part: &Part, slot: &Option<Val>) -> bool
    ensures { result ≡ stands part.now slot.now }
{
    match slot {
        Some(_) => true,
        None => may_be_absent(part),
    }
}

/// Whether each part stands that may not be absent.
pub(crate) fn is_filled(parts: &[Part], found: &[Option<Val>]) -> bool
    requires { length found.now ≡ length parts.now }
    ensures { result ≡ is_filled parts.now found.now }
{
    for (index, part) in parts.iter().enumerate() {
        if !stands(part, &found[index]) {
            return false;
        }
    }
    true
}

/// Whether a part of a SET stands with its default's value.
pub(crate) fn has_default(part: &Part, slot: &Option<Val>) -> bool
    ensures no { result ≡ false → kept_of part.now slot.now ≡ slot.now }
    ensures yes { result ≡ true → kept_of part.now slot.now ≡ None }
{
    match slot {
        Some(value) => has_default_value(part, value),
        None => false,
    }
}

/// Makes each part absent that has its default's value.
pub(crate) fn settle(parts: &[Part], found: &mut MaybeVals)
    requires { length found.old.items ≡ length parts.now }
    ensures { found.new.items ≡ settled parts.now found.old.items }
{
    for (index, part) in parts.iter().enumerate() {
        if has_default(part, &found[index]) {
            found[index] = None;
        }
    }
}
